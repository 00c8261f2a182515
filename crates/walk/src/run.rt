// Instructions in a row: where the walk only counts, the pass over the records need not make each of its steps.
ghost use Rattle.std.specs.Prelude.{◌≡◌, ◌<◌};
ghost use Rattle.rules.specs.Walk.{scan};
ghost use Rattle.walk.specs.Run.{in_code, counted_only, Run};

use rules::limits::CALL;
use rules::{Phase, Walk};

// The walk is among a function's instructions.
pub fn in_code(p: Phase) -> bool
    ensures { result ≡ in_code p }
{
    matches!(p, Phase::Code)
}

// An instruction of this kind, with so many to come, is counted and no more: it is no call, and not the last.
pub fn counted_only(kind: u8, left: usize) -> bool
    ensures { result ≡ counted_only kind left }
{
    (1 < left) & (!(kind == CALL) & crate::step::is_instruction(kind))
}

// The first record from `from` on, before the last of n, at which the walk does more than count.
pub fn run_end(f: &[u8], n: usize, w: Walk, from: usize) -> usize
    requires fact_1 { w ≡ (scan f.now from).walk }
    requires fact_2 { from < n }
    ensures { Run f.now n w from result }
{
    if !in_code(w.phase) {
        return from;
    }
    let mut left = w.left;
    for r in from..n - 1 {
        if !counted_only(crate::file::byte_at(f, r, 0), left) {
            return r;
        }
        left -= 1;
    }
    n - 1
}
