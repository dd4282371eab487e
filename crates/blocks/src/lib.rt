// A block of a replay file: each record is decoded, called and told on a line (01, Replay file). The lines of a block go into one buffer.
#![tactic(auto)]

ghost use Rattle.std.specs.Prelude.{◌≡◌, ◌++◌, ◌+◌, ◌*◌, ◌<◌, ◌≤◌, length, take, drop};
ghost use Rattle.io.specs.Counts.{IsPrefixLen};
ghost use Rattle.model.specs.Replay.{line_of};
ghost use Rattle.text.specs.Text.{line_text, text_of};
ghost use Rattle.blocks.specs.Blocks.{block};

use model::answers::Report;
use model::tables::Table;
use records::RECORD_LENGTH;

// The table after a block, how many bytes of text it came to, and whether its records were good; the first two are told either way.
#[derive(Clone, Copy)]
pub struct Block {
    pub table: Table,
    pub length: usize,
    pub good: bool,
}

fn put_report(out: &mut [u8], at: usize, told: Report) -> usize
    requires { at + 84 ≤ length out.old }
    ensures room { (at ≤ result) × (result ≤ at + 84) }
    ensures text { take result out.new ≡ take at out.old ++ line_text (line_of told) }
    ensures rest { drop result out.new ≡ drop result out.old }
{
    text::put_numbers(
        out,
        at,
        u32::from(told.answer),
        u32::from(told.chosen),
        told.clock,
        told.wakeups,
    )
}

// The records of `bytes`, which begin at `offset` of the file, up to the first that is bad.
pub fn replay_block(
    t: Table,
    rows: &mut [[u8; 16]; 8],
    bytes: &[u8],
    offset: u64,
    out: &mut [u8],
) -> Block
    requires { (84 * (length bytes.now + 20) ≤ 20 * length out.old) × (offset + length bytes.now < 18446744073709551616) }
    ensures text { take result.length out.new ≡ text_of (block offset bytes.now (record { table = t; rows = rows.old })).lines }
    ensures counts { IsPrefixLen result.length out.new }
    ensures after { record { table = result.table; rows = rows.new } ≡ (block offset bytes.now (record { table = t; rows = rows.old })).after }
    ensures good { result.good ≡ (block offset bytes.now (record { table = t; rows = rows.old })).good }
    ensures rest { drop result.length out.new ≡ drop result.length out.old }
{
    let mut table = t;
    let mut here = offset;
    let mut end = 0;
    for record in bytes.chunks(RECORD_LENGTH) {
        // 01 asks for this form; where the record begins is told anew rather than taken out of the error.
        let Ok(q) = records::decode(record, here) else {
            return Block {
                table,
                length: text::put_bad_record(out, end, here),
                good: false,
            };
        };
        let reply = entries::call(table, rows, q);
        table = reply.table;
        end = put_report(out, end, reply.report);
        here += record.len() as u64;
    }
    Block {
        table,
        length: end,
        good: true,
    }
}
