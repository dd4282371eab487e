// What the answers of the calls read of a table, however it is stored. An id may be any number of 32 bits; of what isn't there every number is 0.
ghost use Rattle.std.specs.Prelude.{◌≡◌};
ghost use Rattle.model.specs.State.{State};
ghost use Rattle.model.specs.Parts.{semaphore, mutex, flag_object};
ghost use Rattle.model.specs.Ranges.{has_thread, has_semaphore, has_mutex, has_flags, names_object};
ghost use Rattle.model.specs.Words.{is_ready, is_stopped, owns_any};
ghost use Rattle.answering.specs.Full.{FullIfThere};

use model::tables::Mutex;

pub trait Readable {
    // The table as plain lists.
    ghost state: { Self → State };

    // What is asked of it as it is stored.
    ghost readable: { Self → Type 0 };

    fn chosen(&self) -> u8
        requires { readable self.now }
        ensures { result ≡ (state self.now).chosen };

    // 0 while scheduling is on.
    fn off(&self) -> u8
        requires { readable self.now }
        ensures { result ≡ (state self.now).off };

    fn has_thread(&self, i: u32) -> bool
        requires { readable self.now }
        ensures { result ≡ has_thread i (state self.now) };

    fn has_semaphore(&self, o: u32) -> bool
        requires { readable self.now }
        ensures { result ≡ has_semaphore o (state self.now) };

    fn has_mutex(&self, o: u32) -> bool
        requires { readable self.now }
        ensures { result ≡ has_mutex o (state self.now) };

    fn has_flags(&self, o: u32) -> bool
        requires { readable self.now }
        ensures { result ≡ has_flags o (state self.now) };

    // Whether what an action of this kind names is there.
    fn names_object(&self, kind: u32, object: u32) -> bool
        requires { readable self.now }
        ensures { result ≡ names_object kind object (state self.now) };

    fn is_ready(&self, i: u32) -> bool
        requires { readable self.now }
        ensures { result ≡ is_ready i (state self.now) };

    fn is_stopped(&self, i: u32) -> bool
        requires { readable self.now }
        ensures { result ≡ is_stopped i (state self.now) };

    fn owns_any(&self, i: u8) -> bool
        requires { readable self.now }
        ensures { result ≡ owns_any i (state self.now) };

    fn count(&self, o: u32) -> u16
        requires { readable self.now }
        ensures { result ≡ (semaphore o (state self.now)).count };

    fn is_full(&self, o: u32) -> bool
        requires { readable self.now }
        ensures { FullIfThere o (state self.now) result };

    fn mutex(&self, o: u32) -> Mutex
        requires { readable self.now }
        ensures { result ≡ mutex o (state self.now) };

    fn word(&self, o: u32) -> u16
        requires { readable self.now }
        ensures { result ≡ (flag_object o (state self.now)).word };
}
