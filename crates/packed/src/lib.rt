// Numbers in bytes, low byte first, and bytes copied from one slice to another: what image and records are read and written by.
#![tactic(auto)]

ghost use Rattle.std.specs.Prelude.{◌≡◌, ◌+◌, ◌*◌, ◌<◌, ◌≤◌, length};
ghost use Rattle.std.proofs.lemmas.List.Edits.{sets};
ghost use Rattle.sequences.specs.Bytes.{two_at, four_at, put};

pub mod bytes_of;

// Std reads and writes each width by functions of its own, so there is one of these for each too.
pub fn u16_at(s: &[u8], k: usize) -> u16
    requires { k + 1 < length s.now }
    ensures { result ≡ two_at k s.now }
{
    u16::from_le_bytes([s[k], s[k + 1]])
}

pub fn u32_at(s: &[u8], k: usize) -> u32
    requires { k + 3 < length s.now }
    ensures { result ≡ four_at k s.now }
{
    u32::from_le_bytes([s[k], s[k + 1], s[k + 2], s[k + 3]])
}

pub fn u64_at(s: &[u8], k: usize) -> u64
    requires { k + 7 < length s.now }
    ensures { result ≡ four_at k s.now + 4294967296 * four_at (k + 4) s.now }
{
    u64::from_le_bytes([
        s[k],
        s[k + 1],
        s[k + 2],
        s[k + 3],
        s[k + 4],
        s[k + 5],
        s[k + 6],
        s[k + 7],
    ])
}

// All of `src` into `dst`, from a place on.
pub fn copy_at(dst: &mut [u8], from: usize, src: &[u8])
    requires { from + length src.now ≤ length dst.old }
    ensures { dst.new ≡ sets dst.old from src.now }
{
    dst[from..from + src.len()].copy_from_slice(src);
}

pub fn put_u16(s: &mut [u8], k: usize, x: u16)
    requires { k + 1 < length s.old }
    ensures { s.new ≡ put 2 k x s.old }
{
    let two = x.to_le_bytes();
    copy_at(s, k, &two);
}

pub fn put_u32(s: &mut [u8], k: usize, x: u32)
    requires { k + 3 < length s.old }
    ensures { s.new ≡ put 4 k x s.old }
{
    let four = x.to_le_bytes();
    copy_at(s, k, &four);
}
