// Why a file or a call is refused, and where: the record or block at fault, if the refusal has a place.
#![tactic(auto)]

ghost use Rattle.std.specs.Prelude.{◌≡◌};

#[derive(Clone, Copy, PartialEq, Eq)]
pub enum Refusal {
    // "1 file length. 2 place or count of a block, 3 its check."
    FileLength,
    Block(usize),
    BlockCheck(usize),
    // "4 record unknown, out of order, over a limit or naming nothing"
    Record(usize),
    // "5 term or name", "6 function", "7 an instruction breaks its rule", "8 the last is neither 31 nor 34"
    Term(usize),
    Function(usize),
    Instruction(usize),
    End(usize),
    // "9 arguments .. or a form over 4,096 bytes"
    Input,
    // "20 state not 24,576 bytes, or output not 4,096", "21 state test fails", "22 already ended or stopped"
    Length,
    State,
    NotRunning,
}

impl Refusal {
    ghost use Rattle.rules.specs.Refusals.{number_of, place_of};

    // Document 01's number.
    pub fn number(self) -> u8
        ensures { result ≡ number_of self }
    {
        match self {
            Self::FileLength => 1,
            Self::Block(_) => 2,
            Self::BlockCheck(_) => 3,
            Self::Record(_) => 4,
            Self::Term(_) => 5,
            Self::Function(_) => 6,
            Self::Instruction(_) => 7,
            Self::End(_) => 8,
            Self::Input => 9,
            Self::Length => 20,
            Self::State => 21,
            Self::NotRunning => 22,
        }
    }

    // "block for 2 and 3, record for 4 to 8, else 0"
    pub fn place(self) -> usize
        ensures { result ≡ place_of self }
    {
        match self {
            Self::Block(place)
            | Self::BlockCheck(place)
            | Self::Record(place)
            | Self::Term(place)
            | Self::Function(place)
            | Self::Instruction(place)
            | Self::End(place) => place,
            Self::FileLength | Self::Input | Self::Length | Self::State | Self::NotRunning => 0,
        }
    }
}
