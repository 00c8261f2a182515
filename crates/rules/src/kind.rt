// The kinds of instructions: document 01's numbers 16 to 34 and 36 to 39, a variant for each by the name that specs/Module.antt gives
// the instruction. Byte 0 of an instruction's record is the number; so is the opcode of its words, except that of an operation.
#![tactic(auto)]

ghost use Rattle.std.specs.Prelude.{◌≡◌};
ghost use Rattle.rules.specs.Kinds.{kind_number, kind_numbered};

#[derive(Clone, Copy, PartialEq, Eq)]
pub enum Kind {
    Constant = 16,
    Copy = 17,
    Operate = 18,
    ZeroExtend = 19,
    SignExtend = 20,
    Address = 21,
    Check = 22,
    Field = 23,
    Index = 24,
    Load = 25,
    Store = 26,
    New = 27,
    Free = 28,
    Input = 29,
    Output = 30,
    Jump = 31,
    Branch = 32,
    // record 35, `limits::ARGUMENTS`, follows
    Call = 33,
    Return = 34,
    NewBytes = 36,
    LoadByte = 37,
    StoreByte = 38,
    CheckBytes = 39,
}

impl Kind {
    pub fn number(self) -> u8
        ensures { result ≡ kind_number self }
    {
        self as u8
    }

    // The kind with this number, if it is an instruction's.
    pub fn of(number: u8) -> Option<Kind>
        ensures { result ≡ kind_numbered number }
    {
        match number {
            16 => Some(Kind::Constant),
            17 => Some(Kind::Copy),
            18 => Some(Kind::Operate),
            19 => Some(Kind::ZeroExtend),
            20 => Some(Kind::SignExtend),
            21 => Some(Kind::Address),
            22 => Some(Kind::Check),
            23 => Some(Kind::Field),
            24 => Some(Kind::Index),
            25 => Some(Kind::Load),
            26 => Some(Kind::Store),
            27 => Some(Kind::New),
            28 => Some(Kind::Free),
            29 => Some(Kind::Input),
            30 => Some(Kind::Output),
            31 => Some(Kind::Jump),
            32 => Some(Kind::Branch),
            33 => Some(Kind::Call),
            34 => Some(Kind::Return),
            36 => Some(Kind::NewBytes),
            37 => Some(Kind::LoadByte),
            38 => Some(Kind::StoreByte),
            39 => Some(Kind::CheckBytes),
            _ => None,
        }
    }
}
