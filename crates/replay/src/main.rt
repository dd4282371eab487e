// The replay program (01, Replay file): replays the file that its argument names, or standard input, from a fresh table on. It reads a
// block at a time and writes that block's lines at once, so that a file of any length takes the same memory. What goes wrong outside the
// file's own bytes is told on standard error.
#![tactic(auto)]

mod input;
mod messages;
mod reason;
mod replaying;

use std::env::FillError;
use std::fs::File;
use std::io::Error;
use std::rt::Env;

// As many bytes as Linux takes for a path, and the NUL that ends it.
const PATH_ROOM: usize = 4096;

// Linux's numbers for a name that is too long, and for bytes that are no text.
const ENAMETOOLONG: i32 = 36;

const EILSEQ: i32 = 84;

fn is_given(rt: &impl Env, i: usize) -> bool {
    !matches!(rt.arg(i, &mut []), Err(FillError::NotPresent))
}

fn replay_file(rt: &HostRuntime, name: &[u8]) {
    let mut errors = rt.stderr();
    let Ok(path) = str::from_utf8(name) else {
        messages::cannot_read(&mut errors, name, &Error::from_raw_os_error(EILSEQ));
        return;
    };
    match File::open(rt, path) {
        Ok(mut file) => replaying::replay(&mut file, name, &mut rt.stdout(), &mut errors),
        Err(why) => messages::cannot_read(&mut errors, name, &why),
    }
}

fn replay_named(rt: &HostRuntime) {
    let mut path = [0u8; PATH_ROOM];
    match rt.arg(1, &mut path) {
        Ok(length) => replay_file(rt, &path[..length]),
        Err(_) => {
            let why = Error::from_raw_os_error(ENAMETOOLONG);
            messages::cannot_read(&mut rt.stderr(), b"what the argument names", &why);
        }
    }
}

fn main(rt: HostRuntime) {
    if !is_given(&rt, 1) {
        replaying::replay(
            &mut rt.stdin(),
            b"standard input",
            &mut rt.stdout(),
            &mut rt.stderr(),
        );
    } else if !is_given(&rt, 2) {
        replay_named(&rt);
    } else {
        messages::one_file(&mut rt.stderr());
    }
}
