// What is told on standard error, each on a line. The system's own reason stands behind the name. Where standard error takes nothing,
// nobody is left to be told.
use crate::reason;
use std::io::{Error, Write};

fn cannot(errors: &mut impl Write, what: &[u8], name: &[u8], why: &Error) {
    let _ = errors.write_all(b"ordizgum replay: cannot ");
    let _ = errors.write_all(what);
    let _ = errors.write_all(name);
    let _ = errors.write_all(b": ");
    reason::tell(errors, why);
    let _ = errors.write_all(b"\n");
}

pub fn cannot_read(errors: &mut impl Write, name: &[u8], why: &Error) {
    cannot(errors, b"read ", name, why);
}

pub fn cannot_write(errors: &mut impl Write, why: &Error) {
    cannot(errors, b"write ", b"standard output", why);
}

// Offsets have 64 bits.
pub fn too_long(errors: &mut impl Write, name: &[u8]) {
    let _ = errors.write_all(b"ordizgum replay: too long to be counted: ");
    let _ = errors.write_all(name);
    let _ = errors.write_all(b"\n");
}

pub fn one_file(errors: &mut impl Write) {
    let _ = errors.write_all(b"ordizgum replay: one file at a time\n");
}
