// The rules for a timer's action (01, Calls, call 19).
ghost use Rattle.std.specs.Prelude.{◌≡◌};
ghost use Rattle.model.specs.Ranges.{action_in_range};

use crate::request_fields::is_positive_16;
use model::actions::Action;

pub fn action_in_range(kind: u32, object: u32, mask: u32) -> bool
    ensures { result ≡ action_in_range kind object mask }
{
    match Action::try_from(kind) {
        Ok(Action::Nothing) => (object == 0) & (mask == 0),
        Ok(Action::Post) => mask == 0,
        Ok(Action::SetFlags) => is_positive_16(mask),
        Err(_) => false,
    }
}
