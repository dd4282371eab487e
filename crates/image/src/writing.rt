// A table and its ready rows into an image, part by part; every byte of the image is written.
ghost use Rattle.std.specs.Prelude.{◌≡◌, ◌∷◌, [], length};
ghost use Rattle.sequences.specs.Bytes.{four_bytes, flat, joined};
ghost use Rattle.image.specs.Image.{semaphore_bytes, mutex_bytes, flags_bytes, list_bytes, image_of};

use crate::Image;
use crate::stored::write_all;
use model::tables::Table;

// Clock, scheduling, chosen.
fn head(t: &Table) -> [u8; 6]
    ensures { result ≡ joined (four_bytes t.now.clock ∷ (t.now.off ∷ t.now.chosen ∷ []) ∷ []) }
{
    let clock = t.clock.to_le_bytes();
    [clock[0], clock[1], clock[2], clock[3], t.off, t.chosen]
}

// ---- the whole, in groups of a few parts

fn put_objects(t: &Table, dst: &mut [u8])
    requires { length dst.old ≡ 64 }
    ensures { dst.new ≡ joined (flat semaphore_bytes t.now.semaphores ∷ flat mutex_bytes t.now.mutexes ∷ flat flags_bytes t.now.flags ∷ []) }
{
    write_all(&t.semaphores, &mut dst[0..40]);
    write_all(&t.mutexes, &mut dst[40..52]);
    write_all(&t.flags, &mut dst[52..64]);
}

fn put_lists(t: &Table, rows: &[[u8; 16]; 8], dst: &mut [u8])
    requires { length dst.old ≡ 442 }
    ensures { dst.new ≡ joined (t.now.lengths ∷ joined rows.now ∷ flat list_bytes t.now.waits ∷ []) }
{
    dst[0..8].copy_from_slice(&t.lengths);
    write_all(rows, &mut dst[8..136]);
    write_all(&t.waits, &mut dst[136..442]);
}

pub fn write(t: Table, rows: [[u8; 16]; 8], image: &mut Image)
    ensures { image.new ≡ image_of t rows }
{
    image[0..6].copy_from_slice(&head(&t));
    write_all(&t.threads, &mut image[6..278]);
    put_objects(&t, &mut image[278..342]);
    write_all(&t.timers, &mut image[342..478]);
    put_lists(&t, &rows, &mut image[478..920]);
}
