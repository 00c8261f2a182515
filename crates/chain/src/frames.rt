// The clause of the state test on frames.
ghost use Rattle.std.specs.Prelude.{◌≡◌, ◌<◌};
ghost use Rattle.words.specs.Decide.{does};
ghost use Rattle.rules.specs.Decode.{module_of};
ghost use Rattle.rules.specs.State.{view};
ghost use Rattle.rules.specs.StateTest.{dec_frames};
ghost use Rattle.stack.specs.Tells.{Tells};
ghost use Rattle.chain.specs.Chain.{Stands};
ghost use Rattle.chain.specs.Frames.{LinkOk, FrameOk};

use crate::{linked, stands};
use stack::untested::UntestedState;
use state::Machine;

// Frame k, unless it is the highest, stands at the call that made the one above.
fn link_ok(state: &UntestedState, k: u32) -> bool
    requires { (k < 256) × Stands state.now.file.now state.now.bytes.now k }
    ensures { Tells result (LinkOk state.now.file.now state.now.bytes.now state.now.frames k) }
{
    if k + 1 < state.frames {
        linked(state, k)
    } else {
        true
    }
}

fn frame_ok(state: &UntestedState, k: u32) -> bool
    requires { k < 256 }
    ensures { Tells result (FrameOk state.now.file.now state.now.bytes.now state.now.frames k) }
{
    if !stands(state, k) {
        return false;
    }
    let link = link_ok(state, k);
    let locals = state.locals_ok(k);
    link & locals
}

// "frames .. each stand at an instruction of their function, function 0 lowest, and chain by the calls they stand at; each frame's map
// is the call's regions through the caller's map, then local regions, all different and live in no frame below"
pub fn frames_ok(state: &UntestedState) -> bool
    ensures { let v = view state.now.bytes.now in result ≡ does (dec_frames (module_of state.now.file.now) v.fn v.pc v.map v.frames) }
{
    let n = state.frames;
    let g = state::total::function(state.bytes, 0);
    let each = (0..n).all(|k| frame_ok(state, k));
    (n <= Machine::MOST_FRAMES) & (((n == 0) | (g == 0)) & each)
}
