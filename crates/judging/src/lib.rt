// The answer of every call on an image that words can be said of. Which refusals are due and which of them is given is told in `answering`; here
// is what it reads of an image.
#![tactic(auto)]

ghost use Rattle.std.specs.Prelude.{◌≡◌};
ghost use Rattle.model.specs.Calls.{numbered};
ghost use Rattle.model.specs.Kernel.{judge};
ghost use Rattle.model.specs.Layout.{view};
ghost use Rattle.words.specs.Images.{Whole};

use answering::readable::Readable;
use fields::places::Image;
use fields::{head, semaphores};
use model::answers::Answer;
use model::lists::SEMAPHORE_LIST;
use model::requests::Request;
use model::tables::Mutex;
use words::{objects, owners, standing};

#[derive(Clone, Copy)]
struct Lent<'a> {
    image: &'a Image,
}

impl Readable for Lent<'_> {
    ghost state = { λ s. view s.image.now };

    ghost readable = { λ s. Whole s.image.now };

    fn chosen(&self) -> u8 {
        head::chosen(self.image)
    }

    fn off(&self) -> u8 {
        head::off(self.image)
    }

    fn has_thread(&self, i: u32) -> bool {
        objects::has_thread(self.image, i)
    }

    fn has_semaphore(&self, o: u32) -> bool {
        objects::has_semaphore(self.image, o)
    }

    fn has_mutex(&self, o: u32) -> bool {
        objects::has_mutex(self.image, o)
    }

    fn has_flags(&self, o: u32) -> bool {
        objects::has_flags(self.image, o)
    }

    fn names_object(&self, kind: u32, object: u32) -> bool {
        objects::names_object(self.image, kind, object)
    }

    fn is_ready(&self, i: u32) -> bool {
        standing::is_ready(self.image, i)
    }

    fn is_stopped(&self, i: u32) -> bool {
        standing::is_stopped(self.image, i)
    }

    fn owns_any(&self, i: u8) -> bool {
        owners::owns_any(self.image, i)
    }

    fn count(&self, o: u32) -> u16 {
        objects::count(self.image, o)
    }

    fn is_full(&self, o: u32) -> bool {
        if o < 8 {
            let k = o as usize;
            return !standing::waited_for(self.image, SEMAPHORE_LIST + k)
                & (semaphores::count(self.image, k) == semaphores::maximum(self.image, k));
        }
        false
    }

    fn mutex(&self, o: u32) -> Mutex {
        objects::mutex(self.image, o)
    }

    fn word(&self, o: u32) -> u16 {
        objects::word(self.image, o)
    }
}

pub fn answer(image: &Image, q: Request) -> Answer
    requires { Whole image.now }
    ensures { result ≡ judge (numbered q.call) q (view image.now) }
{
    answering::answer(&Lent { image }, q)
}
