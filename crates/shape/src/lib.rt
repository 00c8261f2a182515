// The clauses of the state test that need no types, on bytes that nobody has tested: length, header, frames (crate chain), owners and
// marks, spare bytes.
#![tactic(auto)]

ghost use Rattle.stack.specs.Tells.{Tells};
ghost use Rattle.shape.specs.Shape.{Shape};

pub mod header;
pub mod pages;
pub mod spare;

use chain::frames::frames_ok;
use stack::untested::UntestedState;

// All of them.
pub fn shape_ok(state: &UntestedState) -> bool
    ensures { Tells result (Shape state.now.file.now state.now.bytes.now) }
{
    let head = crate::header::header_ok(state.bytes);
    let frames = frames_ok(state);
    let pages = crate::pages::pages_ok(state);
    let spare = crate::spare::spare_ok(state);
    (head & frames) & (pages & spare)
}
