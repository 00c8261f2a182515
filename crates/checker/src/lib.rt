// The verdict on a module file, for every byte slice: refusals 1 to 4, then 5 to 8 in the order of their numbers.
#![tactic(auto)]

ghost use Rattle.std.specs.Prelude.{◌≡◌, ℕ, ◌<◌, true, [], ◌∷◌, IfOk};
ghost use Rattle.rules.specs.Decode.{module_of, start_of};
ghost use Rattle.rules.specs.Refusals.{verdict_meant};
ghost use Rattle.rules.specs.Verdict.{term_stage, struct_stage, function_stage, function_test, last_test, verdict_of};
ghost use Rattle.framing.specs.Outcome.{outcome, outcome_meant, IsFirst};
ghost use Rattle.typing.specs.Walk.{Fits};
ghost use Rattle.terms.specs.Extents.{Counted};
ghost use Rattle.positions.specs.Table.{Table};
ghost use Rattle.functions.specs.Functions.{Known, function_at};
ghost use Rattle.instructions.specs.Plain.{Tight};
ghost use Rattle.instructions.specs.Scan.{typed_from};
ghost use Rattle.checker.specs.Rules.{last_rules};

use instructions::known::no_runs;
use instructions::scan::first_instruction;
use rules::limits::CALLEES;
use rules::{Counts, Refusal};

// Refusal 5 of the terms.
fn term_rules(f: &[u8], n: usize, k: usize) -> Result<(), Refusal>
    requires { Counted f.now n k }
    ensures { outcome_meant result ≡ outcome (term_stage (module_of f.now) ∷ []) }
{
    let t = sizes::first_term(f, n, k);
    if t < n { Err(Refusal::Term(t)) } else { Ok(()) }
}

// Refusal 5 of the structs, behind the terms.
fn struct_rules(f: &[u8], n: usize, k: usize) -> Result<(), Refusal>
    requires { Counted f.now n k }
    ensures { outcome_meant result ≡ outcome (struct_stage (module_of f.now) ∷ []) }
{
    let s = sizes::first_struct(f, n, k);
    if s < k {
        Err(Refusal::Term(n + 2 * s))
    } else {
        Ok(())
    }
}

// Refusal 6.
fn function_rules(
    f: &[u8],
    n: usize,
    k: usize,
    c: usize,
    starts: &[usize; CALLEES],
) -> Result<(), Refusal>
    requires { Known f.now n k c starts.now }
    ensures { outcome_meant result ≡ outcome (function_stage f.now (module_of f.now) ∷ []) }
{
    let g = functions::declared::first_function(f, n, k, c, starts);
    if g < c {
        Err(Refusal::Function(walk::tables::start_of(f, starts, g)))
    } else {
        Ok(())
    }
}

// Refusal 7: the first instruction that breaks its rule, function by function; and where there is none the first function whose last
// instruction lets the code run on, if one does.
fn typed_functions(
    f: &[u8],
    n: usize,
    k: usize,
    c: usize,
    starts: &[usize; CALLEES],
    tab: &[u64],
) -> Result<Option<usize>, Refusal>
    requires fact_1 { Known f.now n k c starts.now }
    requires fact_2 { Table f.now n k tab.now }
    requires fact_3 { ((g : ℕ) → g < c → Tight (function_at f.now (start_of f.now g))) }
    ensures answer { outcome_meant result ≡ typed_from f.now 0 c }
    ensures last { IfOk result (IsFirst c (last_test (module_of f.now))) }
{
    let mut known = no_runs();
    let mut runs_on = None;
    for g in 0..c {
        let h = walk::tables::start_of(f, starts, g);
        let x = walk::file::record_at(f, h);
        let count = walk::file::instructions_of(x);
        let found = first_instruction(f, n, k, c, starts, tab, &mut known, h);
        let place = found.place;
        if found.index < count {
            return Err(Refusal::Instruction(place));
        }
        if !functions::last::last_ends(f, h, g, place) {
            runs_on = runs_on.or(Some(g));
        }
    }
    Ok(runs_on)
}

// Refusal 7; the first function whose last instruction lets the code run on, if one does.
fn typed_rules(
    f: &[u8],
    n: usize,
    k: usize,
    c: usize,
    starts: &[usize; CALLEES],
) -> Result<Option<usize>, Refusal>
    requires fact_1 { Known f.now n k c starts.now }
    requires fact_2 { Fits f.now }
    requires fact_3 { ((g : ℕ) → g < c → function_test (module_of f.now) g ≡ true) }
    ensures answer { outcome_meant result ≡ typed_from f.now 0 c }
    ensures last { IfOk result (IsFirst c (last_test (module_of f.now))) }
{
    let tab = positions::extents(f, n, k);
    typed_functions(f, n, k, c, starts, &tab)
}

// Refusal 8, of function `runs_on` if there is one, then accepted.
fn last_rules(
    f: &[u8],
    n: usize,
    k: usize,
    c: usize,
    starts: &[usize; CALLEES],
    runs_on: Option<usize>,
) -> Result<Counts, Refusal>
    requires fact_1 { Known f.now n k c starts.now }
    requires fact_2 { IsFirst c (last_test (module_of f.now)) runs_on }
    ensures { verdict_meant result ≡ last_rules f.now }
{
    match runs_on {
        Some(g) => {
            let h = walk::tables::start_of(f, starts, g);
            Err(Refusal::End(functions::last::last_place(f, h)))
        }
        None => Ok(Counts {
            terms: n,
            names: k,
            functions: c,
            instructions: walk::tables::instructions(f, starts, c),
        }),
    }
}

// The verdict on a file.
pub fn verdict(file: &[u8]) -> Result<Counts, Refusal>
    ensures { verdict_meant result ≡ verdict_of file.now }
{
    let t = records::form_rules(file)?;
    let w = t.walk;
    // lent, as a copy would be cleared on every call, also of a file that is refused before
    let starts = &t.starts;
    term_rules(file, w.terms, w.names)?;
    struct_rules(file, w.terms, w.names)?;
    function_rules(file, w.terms, w.names, w.functions, starts)?;
    let runs_on = typed_rules(file, w.terms, w.names, w.functions, starts)?;
    last_rules(file, w.terms, w.names, w.functions, starts, runs_on)
}
