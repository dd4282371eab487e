// The kinds of a timer's action (01, Calls, call 19).
ghost use Rattle.model.specs.Kinds.{NamesAction};

// A number that is no kind's.
#[derive(Clone, Copy, Debug, PartialEq, Eq)]
pub struct NoSuchAction;

#[derive(Clone, Copy, Debug, PartialEq, Eq)]
pub enum Action {
    Nothing,
    Post,
    SetFlags,
}

impl TryFrom<u32> for Action {
    type Error = NoSuchAction;

    ghost try_from_gives = { NamesAction };

    fn try_from(number: u32) -> Result<Self, NoSuchAction> {
        match number {
            0 => Ok(Action::Nothing),
            1 => Ok(Action::Post),
            2 => Ok(Action::SetFlags),
            _ => Err(NoSuchAction),
        }
    }
}

// As a timer's record has it.
impl TryFrom<u8> for Action {
    type Error = NoSuchAction;

    ghost try_from_gives = { NamesAction };

    fn try_from(number: u8) -> Result<Self, NoSuchAction> {
        Action::try_from(u32::from(number))
    }
}
