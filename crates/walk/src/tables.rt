// What one pass over the records gives: the walk of the whole file, and the record 7 of each function that a call can name.
ghost use Rattle.std.specs.Prelude.{◌≡◌, ◌<◌, ◌≤◌};
ghost use Rattle.rules.specs.Walk.{whole};
ghost use Rattle.rules.specs.Decode.{start_of};
ghost use Rattle.rules.specs.Records.{head_of};
ghost use Rattle.walk.specs.Scan.{callees};
ghost use Rattle.walk.specs.Tables.{tables_of, starts_of, no_tables, instructions_below};

use crate::file::{count, instructions_of, record_at};
use crate::run::run_end;
use crate::step::{in_filler, next, start, to};
use rules::limits::CALLEES;
use rules::{Record, Walk};

// The walk of a whole file, and where function g starts, for each g below 256; 0 where the walk reached no such function.
#[derive(Clone, Copy)]
pub struct Tables {
    pub walk: Walk,
    pub starts: [usize; CALLEES],
}

// What stands in their place for a file that has none.
pub fn no_tables() -> Tables
    ensures { result ≡ no_tables }
{
    Tables {
        walk: start(),
        starts: [0; CALLEES],
    }
}

// One pass over the records, up to the filler. (It passes instructions in a row at once: the index goes on by more than one.)
pub fn tables_of(f: &[u8]) -> Tables
    ensures { result ≡ tables_of f.now }
{
    let n = count(f);
    let mut w = start();
    let mut starts = [0; CALLEES];
    let mut r = 0;
    while r < n {
        if in_filler(w.phase) {
            return Tables { walk: w, starts };
        }
        let e = run_end(f, n, w, r);
        w = to(w, w.phase, w.left - (e - r));
        r = e;
        let v = next(w, record_at(f, r), r);
        let g = w.functions;
        if (g < CALLEES) & (g < v.functions) {
            starts[g] = r;
        }
        w = v;
        r += 1;
    }
    Tables { walk: w, starts }
}

// The record 7 of function g: where it stands.
pub fn start_of(f: &[u8], starts: &[usize; CALLEES], g: usize) -> usize
    requires fact_1 { starts.now ≡ starts_of f.now }
    requires fact_2 { g < callees }
    ensures { result ≡ start_of f.now g }
{
    starts[g]
}

// The record 7 of function g.
pub fn head_of(f: &[u8], starts: &[usize; CALLEES], g: usize) -> Record
    requires fact_1 { starts.now ≡ starts_of f.now }
    requires fact_2 { g < callees }
    ensures { result ≡ head_of f.now (whole f.now) g }
{
    record_at(f, start_of(f, starts, g))
}

// The instructions of the first n functions.
pub fn instructions(f: &[u8], starts: &[usize; CALLEES], n: usize) -> usize
    requires fact_1 { starts.now ≡ starts_of f.now }
    requires fact_2 { n ≤ callees }
    ensures { result ≡ instructions_below f.now n }
{
    let mut sum = 0;
    for g in 0..n {
        sum += instructions_of(head_of(f, starts, g));
    }
    sum
}
