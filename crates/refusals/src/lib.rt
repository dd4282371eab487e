// The answer of every call on a sound table. Which refusals are due and which of them is given is told in `answering`; here is what it reads of
// a table and its rows.
#![tactic(auto, unfolding(model::specs::Before::view, model::specs::Words::owns_any, table::specs::Owners::owns_one_of))]

ghost use Rattle.std.specs.Prelude.{◌≡◌, true};
ghost use Rattle.model.specs.Calls.{numbered};
ghost use Rattle.model.specs.Kernel.{judge};
ghost use Rattle.model.specs.Before.{view, sound_table};

use answering::readable::Readable;
use model::answers::Answer;
use model::lists::SEMAPHORE_LIST;
use model::requests::Request;
use model::tables::{Mutex, Table};
use table::{objects, owners, standing};

#[derive(Clone, Copy)]
struct Stored<'a> {
    table: &'a Table,
    rows: &'a [[u8; 16]; 8],
}

impl Readable for Stored<'_> {
    ghost state = { λ s. view s.table.now s.rows.now };

    ghost readable = { λ s. sound_table s.table.now s.rows.now ≡ true };

    fn chosen(&self) -> u8 {
        self.table.chosen
    }

    fn off(&self) -> u8 {
        self.table.off
    }

    fn has_thread(&self, i: u32) -> bool {
        objects::thread_there(self.table.threads, i)
    }

    fn has_semaphore(&self, o: u32) -> bool {
        objects::semaphore_there(self.table.semaphores, o)
    }

    fn has_mutex(&self, o: u32) -> bool {
        objects::mutex_there(self.table.mutexes, o)
    }

    fn has_flags(&self, o: u32) -> bool {
        objects::flags_there(self.table.flags, o)
    }

    fn names_object(&self, kind: u32, object: u32) -> bool {
        objects::names_object(self.table.semaphores, self.table.flags, kind, object)
    }

    fn is_ready(&self, i: u32) -> bool {
        i < 16 && standing::is_ready(*self.table, *self.rows, i as u8)
    }

    fn is_stopped(&self, i: u32) -> bool {
        i < 16 && standing::is_stopped(*self.table, i as u8)
    }

    fn owns_any(&self, i: u8) -> bool {
        owners::owns_one_of(self.table.mutexes, i)
    }

    fn count(&self, o: u32) -> u16 {
        objects::semaphore(self.table.semaphores, o).count
    }

    fn is_full(&self, o: u32) -> bool {
        if o < 8 {
            let x = objects::semaphore(self.table.semaphores, o);
            return !standing::waited_for(*self.table, SEMAPHORE_LIST + (o as usize))
                & (x.count == x.maximum);
        }
        false
    }

    fn mutex(&self, o: u32) -> Mutex {
        objects::mutex(self.table.mutexes, o)
    }

    fn word(&self, o: u32) -> u16 {
        objects::flag_object(self.table.flags, o).word
    }
}

pub fn answer(t: Table, rows: [[u8; 16]; 8], q: Request) -> Answer
    requires { sound_table t rows ≡ true }
    ensures { result ≡ judge (numbered q.call) q (view t rows) }
{
    answering::answer(
        &Stored {
            table: &t,
            rows: &rows,
        },
        q,
    )
}
