// The calls by their numbers (01, Calls), in its order.
ghost use Rattle.model.specs.Numbers.{NamesCall, IsNumberOf};

// A number that is no call's.
#[derive(Clone, Copy, Debug, PartialEq, Eq)]
pub struct NoSuchCall;

#[derive(Clone, Copy, Debug, PartialEq, Eq)]
pub enum Call {
    CreateThread = 1,
    Start = 2,
    Stop = 3,
    Exit = 4,
    Yield = 5,
    Sleep = 6,
    SetPriority = 7,
    SetQuantum = 8,
    CreateSemaphore = 9,
    Pend = 10,
    Post = 11,
    CreateMutex = 12,
    Claim = 13,
    Release = 14,
    CreateFlags = 15,
    Wait = 16,
    Set = 17,
    Clear = 18,
    StartTimer = 19,
    StopTimer = 20,
    Scheduling = 21,
    Advance = 22,
}

impl TryFrom<u32> for Call {
    type Error = NoSuchCall;

    ghost try_from_gives = { NamesCall };

    #[tactic(auto, unfolding(crate::specs::Calls::numbered, crate::specs::Calls::calls))]
    fn try_from(number: u32) -> Result<Self, NoSuchCall> {
        match number {
            1 => Ok(Call::CreateThread),
            2 => Ok(Call::Start),
            3 => Ok(Call::Stop),
            4 => Ok(Call::Exit),
            5 => Ok(Call::Yield),
            6 => Ok(Call::Sleep),
            7 => Ok(Call::SetPriority),
            8 => Ok(Call::SetQuantum),
            9 => Ok(Call::CreateSemaphore),
            10 => Ok(Call::Pend),
            11 => Ok(Call::Post),
            12 => Ok(Call::CreateMutex),
            13 => Ok(Call::Claim),
            14 => Ok(Call::Release),
            15 => Ok(Call::CreateFlags),
            16 => Ok(Call::Wait),
            17 => Ok(Call::Set),
            18 => Ok(Call::Clear),
            19 => Ok(Call::StartTimer),
            20 => Ok(Call::StopTimer),
            21 => Ok(Call::Scheduling),
            22 => Ok(Call::Advance),
            _ => Err(NoSuchCall),
        }
    }
}

impl From<Call> for u32 {
    ghost from_gives = { IsNumberOf };

    #[tactic(auto, unfolding(crate::specs::Calls::numbered, crate::specs::Calls::calls))]
    fn from(call: Call) -> u32 {
        call as u32
    }
}
