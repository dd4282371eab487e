// Each kind that the image holds many of, in its bytes (docs/IMAGE.md).
ghost use Rattle.std.specs.Prelude.{ℕ, List};
ghost use Rattle.image.specs.Image.{thread_bytes, semaphore_bytes, mutex_bytes, flags_bytes, timer_bytes, list_bytes, row_of};
ghost use Rattle.image.specs.Image.{thread_of, semaphore_of, mutex_of, flags_of, timer_of, list_of};

use crate::stored::Stored;
use model::tables::{Flags, IdList, Mutex, Semaphore, Thread, Timer};
use packed::bytes_of;

impl Stored for Thread {
    const LENGTH: usize = 17;

    ghost LENGTH = { 17 };

    ghost of_bytes = { thread_of };

    ghost as_bytes = { thread_bytes };

    fn read(bytes: &[u8]) -> Thread {
        Thread {
            created: bytes[0],
            base: bytes[1],
            current: bytes[2],
            quantum: packed::u16_at(bytes, 3),
            left: packed::u16_at(bytes, 5),
            limit: packed::u32_at(bytes, 7),
            result: bytes[11],
            mask: packed::u16_at(bytes, 12),
            mode: bytes[14],
            delivered: packed::u16_at(bytes, 15),
        }
    }

    fn write(self, bytes: &mut [u8]) {
        bytes.copy_from_slice(&bytes_of::thread(self));
    }
}

impl Stored for Semaphore {
    const LENGTH: usize = 5;

    ghost LENGTH = { 5 };

    ghost of_bytes = { semaphore_of };

    ghost as_bytes = { semaphore_bytes };

    fn read(bytes: &[u8]) -> Semaphore {
        Semaphore {
            created: bytes[0],
            count: packed::u16_at(bytes, 1),
            maximum: packed::u16_at(bytes, 3),
        }
    }

    fn write(self, bytes: &mut [u8]) {
        bytes.copy_from_slice(&bytes_of::semaphore(self));
    }
}

impl Stored for Mutex {
    const LENGTH: usize = 3;

    ghost LENGTH = { 3 };

    ghost of_bytes = { mutex_of };

    ghost as_bytes = { mutex_bytes };

    fn read(bytes: &[u8]) -> Mutex {
        Mutex {
            created: bytes[0],
            owner: bytes[1],
            depth: bytes[2],
        }
    }

    fn write(self, bytes: &mut [u8]) {
        bytes.copy_from_slice(&bytes_of::mutex(self));
    }
}

impl Stored for Flags {
    const LENGTH: usize = 3;

    ghost LENGTH = { 3 };

    ghost of_bytes = { flags_of };

    ghost as_bytes = { flags_bytes };

    fn read(bytes: &[u8]) -> Flags {
        Flags {
            created: bytes[0],
            word: packed::u16_at(bytes, 1),
        }
    }

    fn write(self, bytes: &mut [u8]) {
        bytes.copy_from_slice(&bytes_of::flag_object(self));
    }
}

impl Stored for Timer {
    const LENGTH: usize = 17;

    ghost LENGTH = { 17 };

    ghost of_bytes = { timer_of };

    ghost as_bytes = { timer_bytes };

    fn read(bytes: &[u8]) -> Timer {
        Timer {
            period: packed::u32_at(bytes, 0),
            left: packed::u32_at(bytes, 4),
            repeat: bytes[8],
            kind: bytes[9],
            object: bytes[10],
            mask: packed::u16_at(bytes, 11),
            count: packed::u32_at(bytes, 13),
        }
    }

    fn write(self, bytes: &mut [u8]) {
        bytes.copy_from_slice(&bytes_of::timer(self));
    }
}

// A ready row is its ids.
impl Stored for [u8; 16] {
    const LENGTH: usize = 16;

    ghost LENGTH = { 16 };

    ghost of_bytes = { row_of };

    ghost as_bytes = { row_of };

    fn read(bytes: &[u8]) -> [u8; 16] {
        let mut ids = [0; 16];
        ids.copy_from_slice(bytes);
        ids
    }

    fn write(self, bytes: &mut [u8]) {
        bytes.copy_from_slice(&self);
    }
}

impl Stored for IdList {
    const LENGTH: usize = 17;

    ghost LENGTH = { 17 };

    ghost of_bytes = { list_of };

    ghost as_bytes = { list_bytes };

    fn read(bytes: &[u8]) -> IdList {
        IdList {
            length: bytes[0],
            ids: <[u8; 16]>::read(&bytes[1..17]),
        }
    }

    fn write(self, bytes: &mut [u8]) {
        bytes[0] = self.length;
        self.ids.write(&mut bytes[1..17]);
    }
}
