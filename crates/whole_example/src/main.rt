// The whole example of 01, Replay file, on a table that is held in a local: thread 3 is created at priority 4 and started, then 5 ticks pass. A line
// for each of the three calls: answer, chosen thread, clock, wake-ups.
#![tactic(auto)]

use fields::places::IMAGE_LENGTH;
use lent::Held;
use model::answers::Report;
use model::calls::Call;
use model::requests::Request;
use std::io;

mod lending;

fn request(call: Call, id: u32, a: u32) -> Request {
    Request {
        call: u32::from(call),
        id,
        a,
        b: 0,
        c: 0,
        d: 0,
    }
}

fn tell(out: &impl Print, told: Report) -> io::Result<()> {
    let answer = u32::from(told.answer);
    println!(out; "{answer} {} {} {}", told.chosen, told.clock, told.wakeups)
}

fn main(rt: HostRuntime) -> io::Result<()> {
    let table = Held {
        image: [0; IMAGE_LENGTH],
    };
    let told = lending::first_run(
        table,
        request(Call::CreateThread, 3, 4),
        request(Call::Start, 3, 0),
        5,
    );
    tell(&rt, told.created)?;
    tell(&rt, told.started)?;
    tell(&rt, told.advanced)
}
