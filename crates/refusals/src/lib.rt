// Why a call is refused (document 01, "Where a call is stopped"; document 02 for 12 to 15).
#![tactic(auto)]

ghost use Rattle.std.specs.Prelude.{◌≡◌, Result};
ghost use Rattle.refusals.specs.Refusals.{number_of, returned};

// A row of the table of checks; its number is what a refused call returns.
#[derive(Clone, Copy, PartialEq, Eq, Debug)]
pub enum Refusal {
    BadDimensions = 1,
    BadTableLength = 2,
    NotWellLaid = 3,
    BadAreaLength = 4,
    BadProcess = 5,
    BadOtherProcess = 6,
    NotSent = 7,
    AlreadyReceived = 8,
    NoRecordsLeft = 9,
    NumberAtLimit = 10,
    BadMask = 11,
    BadPositions = 12,
    AreaTooShort = 13,
    BadScratch = 14,
    NoSavedState = 15,
}

impl From<Refusal> for u32 {
    ghost from_gives = { λ refusal n. n ≡ number_of refusal };

    fn from(refusal: Refusal) -> u32 {
        refusal as u32
    }
}

// What a call returns: 0 where it was accepted.
pub fn returned(outcome: Result<(), Refusal>) -> u32
    ensures { result ≡ returned outcome }
{
    match outcome {
        Ok(()) => 0,
        Err(refusal) => u32::from(refusal),
    }
}
