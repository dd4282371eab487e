// The turns of a replay: a block is read, its records are called, its lines are written.
ghost use Rattle.std.specs.Prelude.{◌+◌, ◌<◌, ◌≤◌};

use crate::{input, messages};
use model::tables::Table;
use records::RECORD_LENGTH;
use std::io::{Read, Write};

// A whole number of records, and room for the lines of as many and for that of a bad one.
const BLOCK: usize = 16380;

const ROOM: usize = 68880;

const LAST_OFFSET: u64 = u64::MAX - BLOCK as u64;

// Where a read failed, what was read of the next record is no short record.
fn readable(filled: &input::Filled) -> usize
    ensures { result ≤ filled.now.count }
{
    if filled.failure.is_some() {
        filled.count - filled.count % RECORD_LENGTH
    } else {
        filled.count
    }
}

// The table after a block, where more may follow.
fn turn<R: Read>(
    reader: &mut R,
    name: &[u8],
    out: &mut impl Write,
    errors: &mut impl Write,
    t: Table,
    rows: &mut [[u8; 16]; 8],
    offset: u64,
) -> Option<Table>
    requires { offset + 16380 < 18446744073709551616 }
{
    let mut block = [0u8; BLOCK];
    let filled = input::fill(reader, &mut block);
    let count = readable(&filled);
    let mut text = [0u8; ROOM];
    let done = blocks::replay_block(t, &mut *rows, &block[..count], offset, &mut text);
    if let Err(why) = out.write_all(&text[..done.length]) {
        messages::cannot_write(errors, &why);
        return None;
    }
    if !done.good {
        return None;
    }
    if let Some(why) = filled.failure {
        messages::cannot_read(errors, name, &why);
        return None;
    }
    (count == BLOCK).then_some(done.table)
}

pub fn replay<R: Read>(reader: &mut R, name: &[u8], out: &mut impl Write, errors: &mut impl Write) {
    let mut table = entries::fresh();
    let mut rows = entries::fresh_rows();
    for offset in (0..LAST_OFFSET).step_by(BLOCK) {
        let Some(after) = turn(reader, name, out, errors, table, &mut rows, offset) else {
            return;
        };
        table = after;
    }
    messages::too_long(errors, name);
}

// What no file and no pipe shows at will: a read that fails on the way, reads that give little, an output that is full.
#[cfg(test)]
mod tests {
    use super::*;
    use std::io;
    use std::io::{Cursor, Error};

    // Two records that advance by 0, and the first bytes of a third.
    const RECORDS: [u8; 43] =
        *b"\xAC\xDC\x16\0\0\0\0\0\0\0\0\0\0\0\0\0\0\0\0\0\xAC\xDC\x16\0\0\0\0\0\0\0\0\0\0\0\0\0\0\0\0\0\xAC\xDC\x16";

    #[derive(Drop)]
    struct Broken;

    impl Read for Broken {
        fn read(&mut self, _buf: &mut [u8]) -> io::Result<usize> {
            Err(Error::from_raw_os_error(5))
        }
    }

    // A byte at a time.
    #[derive(Drop)]
    struct Slow<'a>(&'a [u8]);

    impl Read for Slow<'_> {
        fn read(&mut self, buf: &mut [u8]) -> io::Result<usize> {
            let some = buf.len().min(1);
            self.0.read(&mut buf[..some])
        }
    }

    fn holds<const N: usize>(writer: &Cursor<[u8; N]>, text: &[u8]) -> bool {
        writer.position() == text.len() as u64 && writer.get_ref().starts_with(text)
    }

    #[test]
    fn replays_what_was_read_before_a_failure(rt: HostRuntime) {
        let mut reader = (&RECORDS[..]).chain(Broken);
        let mut out = Cursor::new([0u8; 64]);
        let mut errors = Cursor::new([0u8; 128]);
        replay(&mut reader, b"a tape", &mut out, &mut errors);
        assert!(rt; holds(&out, b"0 255 0 0\n0 255 0 0\n"));
        assert!(rt;
            holds(
                &errors,
                b"ordizgum replay: cannot read a tape: Input/output error\n"
            )
        );
    }

    #[test]
    fn takes_reads_that_give_little(rt: HostRuntime) {
        let mut reader = Slow(&RECORDS[..]);
        let mut out = Cursor::new([0u8; 64]);
        let mut errors = Cursor::new([0u8; 128]);
        replay(&mut reader, b"a tape", &mut out, &mut errors);
        assert!(rt; holds(&out, b"0 255 0 0\n0 255 0 0\nbad record at 40\n"));
        assert!(rt; holds(&errors, b""));
    }

    #[test]
    fn tells_of_an_output_that_is_full(rt: HostRuntime) {
        let mut reader = &RECORDS[..];
        let mut out = Cursor::new([0u8; 15]);
        let mut errors = Cursor::new([0u8; 128]);
        replay(&mut reader, b"a tape", &mut out, &mut errors);
        assert!(rt; holds(&out, b"0 255 0 0\n0 255"));
        assert!(rt;
            holds(
                &errors,
                b"ordizgum replay: cannot write standard output: failed to write whole buffer\n"
            )
        );
    }
}
