// One record of a replay file: mark, call, id, and four numbers (01, Replay file). The decoder looks at the bytes from a record's first on;
// how far apart records stand is the caller's matter.
#![tactic(auto)]

ghost use Rattle.std.specs.Prelude.{◌≡◌, ◌≤◌, length};
ghost use Rattle.model.specs.Replay.{request_of};
ghost use Rattle.records.specs.Records.{record_at};

use model::requests::Request;

pub const RECORD_LENGTH: usize = 20;

const MARK: [u8; 2] = [0xAC, 0xDC];

// No record stands where one should begin: the offset of its first byte.
#[derive(Clone, Copy, Debug, PartialEq, Eq)]
pub struct BadRecord {
    pub offset: u64,
}

fn request(bytes: &[u8]) -> Request
    requires { 20 ≤ length bytes.now }
    ensures { result ≡ request_of bytes.now }
{
    Request {
        call: u32::from(bytes[2]),
        id: u32::from(bytes[3]),
        a: packed::u32_at(bytes, 4),
        b: packed::u32_at(bytes, 8),
        c: packed::u32_at(bytes, 12),
        d: packed::u32_at(bytes, 16),
    }
}

// What stands first in `bytes`, which begin at `offset` of the file: the mark is compared before the record is taken apart.
pub fn decode(bytes: &[u8], offset: u64) -> Result<Request, BadRecord>
    ensures { result ≡ record_at offset bytes.now }
{
    if bytes.len() < RECORD_LENGTH || !bytes.starts_with(&MARK) {
        return Err(BadRecord { offset });
    }
    Ok(request(bytes))
}
