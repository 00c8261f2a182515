// Where the parts of a function stand, and the instruction after another. Each function is the definition of the same name in rules'
// specs/Decode.antt. (No place of a file is 2 ^ 32 or more.)
ghost use Rattle.std.specs.Prelude.{◌≡◌, ◌<◌, ◌^◌};
ghost use Rattle.rules.specs.Decode.{registers_at, code_at, after};

use crate::file::{byte_at, record_at, regions_of};
use rules::limits::{CALL, MOST_ENTRIES};

// The first record 9 of the function with record 7 at h.
pub fn registers_at(f: &[u8], h: usize) -> usize
    requires { h < 2 ^ 32 }
    ensures { result ≡ registers_at f.now h }
{
    let x = record_at(f, h);
    if 0 < regions_of(x) { h + 2 } else { h + 1 }
}

// Its first instruction.
pub fn code_at(f: &[u8], h: usize) -> usize
    requires { h < 2 ^ 32 }
    ensures { result ≡ code_at f.now h }
{
    let x = record_at(f, h);
    let from = registers_at(f, h);
    from + usize::from(x.c).div_ceil(MOST_ENTRIES)
}

// The record after the instruction at r: a 33 has its 35 behind it.
pub fn after(f: &[u8], r: usize) -> usize
    requires { r < 2 ^ 32 }
    ensures { result ≡ after f.now r }
{
    let kind = byte_at(f, r, 0);
    if kind == CALL { r + 2 } else { r + 1 }
}
