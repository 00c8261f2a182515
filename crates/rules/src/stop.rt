// Why a module stops: document 01's numbers 31 to 39, a variant for each. The status byte of a stopped state is the number.
#![tactic(auto)]

ghost use Rattle.std.specs.Prelude.{◌≡◌};
ghost use Rattle.rules.specs.Stops.{stop_number};

#[derive(Clone, Copy, PartialEq, Eq)]
pub enum Stop {
    // "31 zero address"
    ZeroAddress = 31,
    // "32 kind 22 fails"
    CheckFails = 32,
    // "33 index not below the count"
    IndexPast = 33,
    // "34 no page"
    NoPage = 34,
    // "35 call with 16 frames"
    TooDeep = 35,
    // "36 zero divisor, or signed quotient over i32"
    NoQuotient = 36,
    // "37 shift by the width or more"
    ShiftPast = 37,
    // "38 form ended"
    FormEnded = 38,
    // "39 output full"
    OutputFull = 39,
}

impl Stop {
    pub fn number(self) -> u8
        ensures { result ≡ stop_number self }
    {
        self as u8
    }
}
