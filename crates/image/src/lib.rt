// The table as bytes (docs/IMAGE.md): `reading` takes an image apart by offset, `writing` puts a table into one. Any bytes of the right
// length make a table, and whether that is sound is a test of its own. Parts of the image are lent, never copied.
#![tactic(auto)]

mod kinds;
mod reading;
mod stored;
mod writing;

pub use reading::{read_rows, read_table};
pub use writing::write;

pub const IMAGE_LENGTH: usize = 920;

// The bytes of an image. That there are so many is known wherever one is lent.
pub type Image = [u8; IMAGE_LENGTH];
