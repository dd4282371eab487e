// A table and its ready rows out of an image, part by part.
ghost use Rattle.std.specs.Prelude.{◌≡◌};
ghost use Rattle.image.specs.Image.{table_of, rows_of};

use crate::Image;
use crate::stored::read_all;
use model::tables::Table;

pub fn read_table(image: &Image) -> Table
    ensures { result ≡ table_of image.now }
{
    let mut lengths = [0; 8];
    lengths.copy_from_slice(&image[478..486]);
    Table {
        clock: packed::u32_at(image, 0),
        off: image[4],
        chosen: image[5],
        threads: read_all(&image[6..278]),
        semaphores: read_all(&image[278..318]),
        mutexes: read_all(&image[318..330]),
        flags: read_all(&image[330..342]),
        timers: read_all(&image[342..478]),
        lengths,
        waits: read_all(&image[614..920]),
    }
}

pub fn read_rows(image: &Image) -> [[u8; 16]; 8]
    ensures { result ≡ rows_of image.now }
{
    read_all(&image[486..614])
}
