// Refusal 4: each record against what the walk over the file says that it is to be; and refusals 1 to 4 together. Each contract is an
// equation with a definition of rules' specs/ or of specs/, for every byte slice.
#![tactic(auto)]

ghost use Rattle.std.specs.Prelude.{◌≡◌, ℕ, ◌<◌, ◌≤◌, true, IfOk};
ghost use Rattle.rules.specs.File.{records};
ghost use Rattle.rules.specs.Walk.{scan};
ghost use Rattle.rules.specs.Records.{record_test};
ghost use Rattle.walk.specs.Run.{Run};
ghost use Rattle.walk.specs.Tables.{tables_of};
ghost use Rattle.framing.specs.Outcome.{outcome_meant};
ghost use Rattle.records.specs.Outcome.{IsFault, records_of};
ghost use Rattle.records.specs.Checked.{checked_of};
ghost use Rattle.records.specs.Records.{Filled};

use rules::{Refusal, Walk};
use walk::tables::Tables;

// The first place at which refusal 4 is due, where the walk is in the filler before record `from`, and no record before it is at fault.
fn filler_fault(f: &[u8], n: usize, from: usize) -> Option<usize>
    requires fact_1 { n ≡ records f.now }
    requires fact_2 { Filled f.now from }
    requires fact_3 { from ≤ n }
    ensures { IsFault f.now result }
{
    for r in from..n {
        let x = walk::file::record_at(f, r);
        if !fits::is_filler(x) {
            return Some(r);
        }
    }
    None
}

// Instructions in a row: the first record from `from` on, before the last of n, that does not plainly fit. The walk before record `from`
// is w; it counts those between.
fn run_end(f: &[u8], n: usize, w: Walk, from: usize) -> usize
    requires fact_1 { n ≡ records f.now }
    requires fact_2 { w ≡ (scan f.now from).walk }
    requires fact_3 { from < n }
    ensures { (Run f.now n w from result) × ((j : ℕ) → from ≤ j → j < result → record_test f.now j ≡ true) }
{
    let p = w.phase;
    if !walk::run::in_code(p) {
        return from;
    }
    let limits = operands::limits(w.registers, w.instructions);
    for r in from..n - 1 {
        let x = walk::file::record_at(f, r);
        if !fits::plainly_fits(&limits, w.left - (r - from), x) {
            return r;
        }
    }
    n - 1
}

// The first place at which refusal 4 is due, if it is: a record, or their number where the file ends too soon.
pub fn first_fault(f: &[u8], t: Tables) -> Option<usize>
    requires { t ≡ tables_of f.now }
    ensures { IsFault f.now result }
{
    let n = walk::file::count(f);
    let starts = t.starts;
    let end = t.walk;
    let mut w = walk::step::start();
    let mut r = 0;
    // a `while`: a turn passes over all instructions in a row
    while r < n {
        let p = w.phase;
        if walk::step::in_filler(p) {
            return filler_fault(f, n, r);
        }
        let e = run_end(f, n, w, r);
        w = walk::step::to(w, p, w.left - (e - r));
        r = e;
        let x = walk::file::record_at(f, r);
        if !fits::fits(f, &starts, end, w, x) {
            return Some(r);
        }
        w = walk::step::next(w, x, r);
        r += 1;
    }
    let p = w.phase;
    if fits::end_fits(p) { None } else { Some(n) }
}

// Refusal 4.
pub fn record_rules(f: &[u8], t: Tables) -> Result<(), Refusal>
    requires { t ≡ tables_of f.now }
    ensures { outcome_meant result ≡ records_of f.now }
{
    match first_fault(f, t) {
        Some(p) => Err(Refusal::Record(p)),
        None => Ok(()),
    }
}

// Refusal 4; of a file that passes, its tables. A function of its own, as the tables are cleared at its entry: not for a file that is
// refused before.
#[inline(never)]
fn fitting_tables(f: &[u8]) -> Result<Tables, Refusal>
    ensures answer { outcome_meant result ≡ records_of f.now }
    ensures tables { IfOk result (λ t. t ≡ tables_of f.now) }
{
    let t = walk::tables::tables_of(f);
    record_rules(f, t)?;
    Ok(t)
}

// Refusals 1, 2, 3 and 4, in order; of a file that passes, its tables.
pub fn form_rules(f: &[u8]) -> Result<Tables, Refusal>
    ensures answer { outcome_meant result ≡ checked_of f.now }
    ensures tables { IfOk result (λ t. t ≡ tables_of f.now) }
{
    framing::framing(f)?;
    fitting_tables(f)
}
