// A state that nobody has tested, and what a call finds once of the file whose it is said to be: where its functions start, and how many.
ghost use Rattle.std.specs.Prelude.{◌≡◌, ◌<◌};
ghost use Rattle.std.proofs.Props.{props};
ghost use Rattle.words.specs.Bytes.{AllBytes};
ghost use Rattle.rules.specs.State.{view};
ghost use Rattle.stack.specs.Facts.{Known};

use rules::limits::CALLEES;

// `bytes` are the state's, `frames` is their number of frames.
#[derive(Clone, Copy)]
pub struct UntestedState<'a> {
    pub file: &'a [u8],
    pub starts: &'a [usize; CALLEES],
    pub functions: usize,
    pub bytes: &'a [u8],
    pub frames: u32,
    pub ghost file_bytes: { AllBytes file.now },
    pub ghost state_bytes: { AllBytes bytes.now },
    pub ghost known: { Known file.now starts.now functions } by { Prim.hlevel props },
    pub ghost counted: { frames ≡ (view bytes.now).frames },
    pub ghost few: { frames < 256 },
}
