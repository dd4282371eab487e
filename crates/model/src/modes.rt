// The modes of a wait for flags (01, Calls): which of the mask's bits have to be set, or clear.
ghost use Rattle.model.specs.Kinds.{NamesMode};

// A number that is no mode's.
#[derive(Clone, Copy, Debug, PartialEq, Eq)]
pub struct NoSuchMode;

#[derive(Clone, Copy, Debug, PartialEq, Eq)]
pub enum Mode {
    AnySet,
    AllSet,
    AnyClear,
    AllClear,
}

impl TryFrom<u32> for Mode {
    type Error = NoSuchMode;

    ghost try_from_gives = { NamesMode };

    fn try_from(number: u32) -> Result<Self, NoSuchMode> {
        match number {
            0 => Ok(Mode::AnySet),
            1 => Ok(Mode::AllSet),
            2 => Ok(Mode::AnyClear),
            3 => Ok(Mode::AllClear),
            _ => Err(NoSuchMode),
        }
    }
}

// As a thread's record has it.
impl TryFrom<u8> for Mode {
    type Error = NoSuchMode;

    ghost try_from_gives = { NamesMode };

    fn try_from(number: u8) -> Result<Self, NoSuchMode> {
        Mode::try_from(u32::from(number))
    }
}
