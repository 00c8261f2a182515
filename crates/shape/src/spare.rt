// "spare bytes zero": behind the header, behind the frames, frames not in use, and in a frame what its function does not have.
ghost use Rattle.std.specs.Prelude.{ℕ, ◌<◌, ◌≤◌, length};
ghost use Rattle.rules.specs.Limits.{most_frames};
ghost use Rattle.stack.specs.Tells.{Tells};
ghost use Rattle.shape.specs.Zeros.{ZeroFrom};
ghost use Rattle.shape.specs.Spare.{UsedSpare, FrameSpare, SpareShape};

use stack::untested::UntestedState;
use state::Machine;
use state::places::{frame_place, function_place, map_place, register_place};

// The bytes from .. to - 1 are zero, of those that there are. (No byte ends the loop, so that many are compared at once.)
fn zero_in(s: &[u8], from: usize, to: usize) -> bool
    requires { to ≤ length s.now }
    ensures { Tells result ((i : ℕ) → i < to → ZeroFrom s.now from i) }
{
    let mut all = true;
    for i in from..to {
        all = all & (s[i] == 0);
    }
    all
}

// The bytes from .. to - 1 are zero: past the last a byte is 0. (Two calls, and not one up to `to.min(n)`: how many bytes a caller asks for
// is then known where it is compiled, as 32 of a page's marks are, and no loop is left of them.)
pub fn zero(s: &[u8], from: usize, to: usize) -> bool
    ensures { Tells result ((i : ℕ) → i < to → ZeroFrom s.now from i) }
{
    let n = s.len();
    if to <= n {
        zero_in(s, from, to)
    } else {
        zero_in(s, from, n)
    }
}

// A frame in use: registers and map entries that its function does not have, and its last bytes.
fn used_spare(state: &UntestedState, k: u32) -> bool
    requires { k < most_frames }
    ensures { Tells result (UsedSpare state.now.file.now state.now.bytes.now k) }
{
    let h = state.head(k);
    let c = u32::from(h.c);
    let m = u32::from(h.a) + u32::from(h.b);
    let at = frame_place(k);
    let registers = zero(state.bytes, register_place(k, c), map_place(k, 0));
    let map = zero(state.bytes, map_place(k, m), function_place(k));
    let last = zero(
        state.bytes,
        at + Machine::SPARE_IN,
        at + Machine::FRAME_BYTES,
    );
    registers & (map & last)
}

// Frame k, in use or not.
fn frame_spare(state: &UntestedState, k: u32) -> bool
    requires { k < most_frames }
    ensures { Tells result (FrameSpare state.now.file.now state.now.bytes.now state.now.frames k) }
{
    if k < state.frames {
        used_spare(state, k)
    } else {
        let at = frame_place(k);
        zero(state.bytes, at, at + Machine::FRAME_BYTES)
    }
}

pub fn spare_ok(state: &UntestedState) -> bool
    ensures { Tells result (SpareShape state.now.file.now state.now.bytes.now) }
{
    let header = zero(state.bytes, Machine::HEADER_END, Machine::OWNERS_AT);
    let stack = zero(state.bytes, Machine::STACK_END, Machine::MEMORY_AT);
    let each = (0..Machine::MOST_FRAMES).all(|k| frame_spare(state, k));
    (header & stack) & each
}
