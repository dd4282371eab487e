// Why the system failed, in its own words: `Error` puts the number behind them, as in "Is a directory (os error 21)", which isn't told.
use std::io::{Cursor, Error, Write};

// More than the text of an `Error` takes.
const ROOM: usize = 512;

// `text` up to the blank before its last parenthesis.
fn without_number(text: &[u8]) -> &[u8] {
    match text.iter().rposition(|byte| *byte == b'(') {
        Some(at) if at > 0 => &text[..at - 1],
        _ => text,
    }
}

pub fn tell(errors: &mut impl Write, why: &Error) {
    let mut writer = Cursor::new([0u8; ROOM]);
    let _ = write!(writer, "{why}");
    let length = writer.position().min(ROOM as u64) as usize;
    let room = writer.into_inner();
    let text = &room[..length];
    let _ = if why.raw_os_error().is_some() {
        errors.write_all(without_number(text))
    } else {
        errors.write_all(text)
    };
}
