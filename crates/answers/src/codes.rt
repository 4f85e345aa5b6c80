// Codes that an entry gives of itself (`specs/Codes.antt`); every other is 0 or a refusal's number. And what ends a call without an answer,
// which becomes its code only where the call answers.
ghost use Rattle.std.specs.Prelude.{◌≡◌};
ghost use Rattle.answers.specs.Codes.{stop_code, code_by};

use protobuf::refusal::Refusal;

pub const OUTSIDE: u32 = 14;

pub const NONE: u32 = 100;

pub const ENDED: u32 = 101;

// There are no more, or it is refused.
#[derive(Clone, Copy, Debug, PartialEq, Eq)]
pub enum Stop {
    Ended,
    Refused(Refusal),
}

impl Stop {
    // No room for an answer, or nothing there to be read.
    pub const OUTSIDE: Stop = Stop::Refused(Refusal::Outside);
}

impl From<Refusal> for Stop {
    ghost use Rattle.answers.specs.declared.codes.Stop.TheVariants as stop;

    ghost from_gives = { λ refusal why. why ≡ stop.Refused refusal };

    fn from(refusal: Refusal) -> Stop {
        Stop::Refused(refusal)
    }
}

impl From<Stop> for u32 {
    ghost from_gives = { λ stop code. code ≡ stop_code stop };

    fn from(stop: Stop) -> u32 {
        match stop {
            Stop::Ended => ENDED,
            Stop::Refused(refusal) => u32::from(refusal),
        }
    }
}

// The code of a call.
pub fn code(said: Result<(), Stop>) -> u32
    ensures { result ≡ code_by said }
{
    match said {
        Ok(()) => 0,
        Err(stop) => u32::from(stop),
    }
}
