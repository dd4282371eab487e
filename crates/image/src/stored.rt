// What the image holds many of, one behind the other: each takes so many bytes, and is read and written whole.
ghost use Rattle.std.specs.Prelude.{◌≡◌, ◌*◌, ℕ, List, length};
ghost use Rattle.sequences.specs.Bytes.{chunks, flat};

use std::array;

pub trait Stored: Copy {
    const LENGTH: usize;

    ghost LENGTH: { ℕ };

    ghost of_bytes: { List ℕ → Self };

    ghost as_bytes: { Self → List ℕ };

    fn read(bytes: &[u8]) -> Self
        requires { length bytes.now ≡ LENGTH }
        ensures { result ≡ of_bytes bytes.now };

    fn write(self, bytes: &mut [u8])
        requires { length bytes.old ≡ LENGTH }
        ensures { bytes.new ≡ as_bytes self };
}

pub fn read_all<T: Stored, const N: usize>(bytes: &[u8]) -> [T; N]
    requires { length bytes.now ≡ T.LENGTH * N }
    ensures { result ≡ chunks T.of_bytes T.LENGTH N bytes.now }
{
    array::from_fn(|i| {
        let at = T::LENGTH * i;
        let end = at + T::LENGTH;
        T::read(&bytes[at..end])
    })
}

pub fn write_all<T: Stored>(all: &[T], bytes: &mut [u8])
    requires { length bytes.old ≡ T.LENGTH * length all.now }
    ensures { bytes.new ≡ flat T.as_bytes all.now }
{
    for (i, x) in all.iter().enumerate() {
        let at = T::LENGTH * i;
        let end = at + T::LENGTH;
        x.write(&mut bytes[at..end]);
    }
}
