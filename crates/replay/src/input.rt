// Reading a block: until it is full, the input ends or a read fails. The last two aren't the same, as a file that can't be read to its end
// must not pass for a short one.
ghost use Rattle.std.specs.Prelude.{◌<◌, IsNone, length, take};
ghost use Rattle.std.specs.Io.KnownBytes.{Consumes, IsAtEnd};
ghost use Rattle.io.specs.Counts.{IsPrefixLen};

use std::io::{Error, Read};

// How many bytes were read, and why no more where a read failed.
#[derive(Clone, Copy)]
pub struct Filled {
    pub count: usize,
    pub failure: Option<Error>,
}

pub fn fill<R: Read>(reader: &mut R, block: &mut [u8]) -> Filled
    ensures counts { IsPrefixLen result.count block.new }
    ensures bytes { Consumes (R.remaining reader.old) (R.remaining reader.new) (take result.count block.new) }
    ensures end { IsNone result.failure → result.count < length block.new → IsAtEnd (R.remaining reader.new) }
{
    let mut count = 0;
    while count < block.len() {
        match reader.read(&mut block[count..]) {
            Ok(0) => break,
            Ok(more) => count += more,
            Err(why) => {
                return Filled {
                    count,
                    failure: Some(why),
                };
            }
        }
    }
    Filled {
        count,
        failure: None,
    }
}
