// Going on: the order of refusals, and a run of a tested state.
ghost use Rattle.std.specs.Prelude.{◌≡◌, ◌*◌, ◌≤◌, length};
ghost use Rattle.rules.specs.Limits.{most_form, output_bytes, state_bytes};
ghost use Rattle.rules.specs.File.{records};
ghost use Rattle.rules.specs.Decode.{module_of};
ghost use Rattle.rules.specs.State.{view};
ghost use Rattle.rules.specs.StateTest.{Passes};
ghost use Rattle.rules.specs.Verdict.{verdict_of, IsAccepted};
ghost use Rattle.rules.specs.Host.{go_of, go_at};
ghost use Rattle.prepare.specs.Room.{code_words};
ghost use Rattle.turns.specs.Turns.{Came};
ghost use Rattle.host.specs.Ready.{Ready};
ghost use Rattle.host.specs.Going.{WentBy};

use crate::tables::{Tables, passes, tables_of};
use prepare::code::{CODE_WORDS, SMALL_BLOCKS, SMALL_WORDS};
use prepare::fill;
use rules::limits::{BLOCK_BYTES, CALLEES};
use rules::{PageRange, Refusal};
use run::run::run;
use run::{Outcome, outcome_of};
use state::Machine;
use state::fields::status;
use state::range::all_pages;

// What came of a call that is not refused, after so many steps.
#[derive(Clone, Copy)]
pub struct Went {
    pub outcome: Outcome,
    pub steps: u64,
}

// ---- a run of a running state that passes the test: what it reads is filled once, then at most budget steps

// Of a file whose code has room in so many words. (Fewer are cleared for a small file. And a function that is called once is compiled as
// a part of its caller: called from two places, as each number of words makes one, `run` stays a function of its own, with machine code
// that nothing else in the call changes.)
fn run_in<const WORDS: usize>(
    file: &[u8],
    t: Tables,
    form: &[u8],
    s: &mut [u8],
    o: &mut [u8],
    budget: u64,
) -> u64
    requires ready { Ready file.now t }
    requires room { (2 * records file.now ≤ WORDS) × (WORDS ≤ code_words) }
    requires running { Passes (module_of file.now) s.old × ((view s.old).status ≡ 0) }
    requires output { length o.old ≡ output_bytes }
    ensures { Came (module_of file.now) form.now s.old o.old budget result s.new o.new }
{
    let starts = t.starts;
    let extents = t.extents;
    let mut code = [0u64; WORDS];
    let mut functions = [0u64; CALLEES];
    let mut given = [0u8; CALLEES];
    let mut own = [0u8; CALLEES];
    fill(
        file,
        t.terms,
        t.structs,
        t.functions,
        &starts,
        &extents,
        &mut code,
        &mut functions,
        &mut given,
        &mut own,
    );
    run(
        file, t.terms, t.structs, &extents, &code, &functions, &given, &own, form, s, o, budget,
    )
}

// Of a file of either size.
fn run_sized(file: &[u8], t: Tables, form: &[u8], s: &mut [u8], o: &mut [u8], budget: u64) -> u64
    requires { (Ready file.now t) × ((Passes (module_of file.now) s.old × ((view s.old).status ≡ 0)) × (length o.old ≡ output_bytes)) }
    ensures { Came (module_of file.now) form.now s.old o.old budget result s.new o.new }
{
    if file.len() / BLOCK_BYTES <= SMALL_BLOCKS {
        run_in::<SMALL_WORDS>(file, t, form, s, o, budget)
    } else {
        run_in::<CODE_WORDS>(file, t, form, s, o, budget)
    }
}

// Of a running state that passes the test: its run, and the outcome that stands in the state which that leaves.
fn go_running(
    range: PageRange,
    file: &[u8],
    t: Tables,
    form: &[u8],
    s: &mut [u8],
    o: &mut [u8],
    budget: u64,
) -> Result<Went, Refusal>
    requires fact_1 { Ready file.now t }
    requires fact_2 { Passes (module_of file.now) s.old × ((view s.old).range ≡ range) }
    requires fact_3 { ((view s.old).status ≡ 0) × (length form.now ≤ most_form) × (length o.old ≡ output_bytes) }
    ensures { WentBy result s.old s.new o.old o.new (go_at range file.now form.now s.old o.old budget) }
{
    let steps = run_sized(file, t, form, s, o, budget);
    let outcome = outcome_of(s);
    Ok(Went { outcome, steps })
}

// Of an accepted module, where form, state and output have their lengths: the state test, then whether the state runs.
fn go_tested(
    range: PageRange,
    file: &[u8],
    form: &[u8],
    s: &mut [u8],
    o: &mut [u8],
    budget: u64,
) -> Result<Went, Refusal>
    requires fact_1 { IsAccepted (verdict_of file.now) }
    requires fact_2 { (length form.now ≤ most_form) × (length s.old ≡ state_bytes) × (length o.old ≡ output_bytes) }
    ensures { WentBy result s.old s.new o.old o.new (go_at range file.now form.now s.old o.old budget) }
{
    let t = tables_of(file);
    if !passes(range, file, t, s) {
        return Err(Refusal::State);
    }
    if status(s) != 0 {
        return Err(Refusal::NotRunning);
    }
    go_running(range, file, t, form, s, o, budget)
}

// Of an accepted module: the form's length, then those of state and output.
fn go_accepted(
    range: PageRange,
    file: &[u8],
    form: &[u8],
    s: &mut [u8],
    o: &mut [u8],
    budget: u64,
) -> Result<Went, Refusal>
    requires { IsAccepted (verdict_of file.now) }
    ensures { WentBy result s.old s.new o.old o.new (go_at range file.now form.now s.old o.old budget) }
{
    if Machine::MOST_FORM < form.len() {
        return Err(Refusal::Input);
    }
    if (s.len() == Machine::STATE_BYTES) & (o.len() == Machine::OUTPUT_BYTES) {
        go_tested(range, file, form, s, o, budget)
    } else {
        Err(Refusal::Length)
    }
}

// Going on for at most budget steps, of the machine with this range. A refusal leaves state and output as they were.
pub fn go_at(
    range: PageRange,
    file: &[u8],
    form: &[u8],
    s: &mut [u8],
    o: &mut [u8],
    budget: u64,
) -> Result<Went, Refusal>
    ensures { WentBy result s.old s.new o.old o.new (go_at range file.now form.now s.old o.old budget) }
{
    checker::verdict(file)?;
    go_accepted(range, file, form, s, o, budget)
}

// Going on, of document 01's machine.
pub fn go(
    file: &[u8],
    form: &[u8],
    s: &mut [u8],
    o: &mut [u8],
    budget: u64,
) -> Result<Went, Refusal>
    ensures { WentBy result s.old s.new o.old o.new (go_of file.now form.now s.old o.old budget) }
{
    go_at(all_pages(), file, form, s, o, budget)
}
