// The frames of a state that nobody has tested, for any bytes: the call that a frame stands at, and that the frame above is its callee
// with the call's regions through the caller's map. Each answer tells a fact of rules' StateTest.
#![tactic(auto)]

ghost use Rattle.std.specs.Prelude.{◌≡◌, ℕ, ◌+◌, ◌<◌, ◌^◌};
ghost use Rattle.rules.specs.File.{record_of, byte_of_d, instructions_of};
ghost use Rattle.rules.specs.Decode.{start_of, instruction_at};
ghost use Rattle.typing.specs.Walk.{skip};
ghost use Rattle.stack.specs.Tells.{Tells};
ghost use Rattle.chain.specs.Chain.{Stands, Leads, Linked, call_at};

use rules::Record;
use rules::limits::CALL;
use stack::untested::UntestedState;

pub mod frames;

// The record n instructions after the one at r.
fn skip(f: &[u8], r: usize, n: usize) -> usize
    requires { (r < 2 ^ 31) × (n < 65536) }
    ensures { result ≡ skip f.now r n }
{
    let mut p = r;
    for _i in 0..n {
        p = walk::code::after(f, p);
    }
    p
}

// The record of instruction i of function g.
fn place(state: &UntestedState, g: usize, i: usize) -> usize
    requires { let f = state.now.file.now in (g < 256) × ((i < 65536) × (i < instructions_of (record_of f (start_of f g)))) }
    ensures { result ≡ instruction_at state.now.file.now g i }
{
    let h = walk::tables::start_of(state.file, state.starts, g);
    let at = walk::code::code_at(state.file, h);
    skip(state.file, at, i)
}

// Frame k is of a function of the module, and stands at one of its instructions.
pub fn stands(state: &UntestedState, k: u32) -> bool
    ensures { Tells result (Stands state.now.file.now state.now.bytes.now k) }
{
    let g = state::total::function(state.bytes, k);
    let i = state::total::instruction(state.bytes, k);
    let h = state.head(k);
    let n = walk::file::instructions_of(h);
    (usize::from(g) < state.functions) & ((i as usize) < n)
}

// The record of the instruction that frame k stands at.
fn call_at(state: &UntestedState, k: u32) -> Record
    requires { Stands state.now.file.now state.now.bytes.now k }
    ensures { result ≡ call_at state.now.file.now state.now.bytes.now k }
{
    let g = usize::from(state::total::function(state.bytes, k));
    let i = state::total::instruction(state.bytes, k);
    let p = place(state, g, i as usize);
    walk::file::record_at(state.file, p)
}

// Byte i of d; from 3 on the highest.
fn byte_of(x: Record, i: u32) -> u32
    ensures { result ≡ byte_of_d x i }
{
    match i {
        0 => x.d % 256,
        1 => x.d / 256 % 256,
        2 => x.d / 65536 % 256,
        _ => x.d / 16777216,
    }
}

// Entry i of the map of frame k + 1 is that of frame k at byte i of d.
fn leads(state: &UntestedState, k: u32, x: Record, i: u32) -> bool
    requires { k < 256 }
    ensures { Tells result (Leads state.now.bytes.now k x i) }
{
    let variable = byte_of(x, i);
    let given = state.region(k, variable);
    let got = state.region(k + 1, i);
    got == given
}

// Frame k stands at the call that made frame k + 1.
pub fn linked(state: &UntestedState, k: u32) -> bool
    requires { (k < 256) × Stands state.now.file.now state.now.bytes.now k }
    ensures { Tells result (Linked state.now.file.now state.now.bytes.now k) }
{
    let x = call_at(state, k);
    let g = state::total::function(state.bytes, k + 1);
    let h = state.head(k + 1);
    let through = (0..u32::from(h.a)).all(|i| leads(state, k, x, i));
    (x.kind == CALL) & ((x.b == g) & through)
}
