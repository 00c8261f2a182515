// Refusal 8: the last instruction of each function.
ghost use Rattle.std.specs.Prelude.{◌≡◌, ◌<◌, ◌-◌};
ghost use Rattle.rules.specs.Decode.{module_of, start_of};
ghost use Rattle.rules.specs.Verdict.{last_test};
ghost use Rattle.functions.specs.Functions.{place_limit, function_at, place_in};
ghost use Rattle.functions.specs.Last.{ends};

use rules::limits::{JUMP, RETURN};

// A jump or a return.
pub fn ends(kind: u8) -> bool
    ensures { result ≡ ends kind }
{
    matches!(kind, JUMP | RETURN)
}

// The record of the last instruction of the function with record 7 at h.
pub fn last_place(f: &[u8], h: usize) -> usize
    requires { h < place_limit }
    ensures { result ≡ place_in f.now h ((function_at f.now h).code_length - 1) }
{
    let x = walk::file::record_at(f, h);
    let count = walk::file::instructions_of(x);
    crate::readers::place_in(f, h, count.saturating_sub(1))
}

// Refusal 8's test of function g, whose record 7 is at h and whose last instruction is at record r.
pub fn last_ends(f: &[u8], h: usize, g: usize, r: usize) -> bool
    requires fact_1 { h ≡ start_of f.now g }
    requires fact_2 { r ≡ place_in f.now h ((function_at f.now h).code_length - 1) }
    ensures { result ≡ last_test (module_of f.now) g }
{
    let x = walk::file::record_at(f, r);
    ends(x.kind)
}
