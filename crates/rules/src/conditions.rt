// The condition of a wait for flags (01, Calls, modes).
ghost use Rattle.std.specs.Prelude.{◌≡◌};
ghost use Rattle.model.specs.Words.{holds};

use model::modes::Mode;

// Every number from 3 on asks for all clear, as the definition has it.
pub fn holds(mode: u8, mask: u16, word: u16) -> bool
    ensures { result ≡ holds mode mask word }
{
    let of_mask = word & mask;
    match Mode::try_from(mode) {
        Ok(Mode::AnySet) => of_mask != 0,
        Ok(Mode::AllSet) => of_mask == mask,
        Ok(Mode::AnyClear) => of_mask != mask,
        Ok(Mode::AllClear) | Err(_) => of_mask == 0,
    }
}
