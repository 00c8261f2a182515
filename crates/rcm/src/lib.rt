// What the C interface answers (include/rcm.h; crate rcm_c has its exports). Each function's contract gives the numbers of its answer by a
// definition of rules' specs/Host.antt.
#![tactic(auto)]

ghost use Rattle.std.specs.Prelude.{◌≡◌, [], ◌∷◌, ◌+◌, ◌*◌, ◌≤◌};
ghost use Rattle.rules.specs.Limits.{most_functions, most_instructions};
ghost use Rattle.rules.specs.Refusals.{number_of, place_of, verdict_meant};
ghost use Rattle.rules.specs.Verdict.{verdict_of};
ghost use Rattle.rules.specs.Host.{check_numbers, go_of, go_numbers, left_opened, left_output, left_state, object_of, open_of, open_numbers, part_numbers, test_of, test_numbers};
ghost use Rattle.words.specs.Bytes.{Bytes};
ghost use Rattle.opening.specs.Opening.{opened_meant};
ghost use Rattle.host.specs.Going.{went_meant};
ghost use Rattle.host.specs.Testing.{tested_meant};
ghost use Rattle.host.specs.Reading.{part_around};
ghost use Rattle.rcm.specs.Answer.{SmallCounts};

use host::go::Went;
use rules::{Counts, Refusal};
use run::Outcome;
use state::Machine;
use state::places::page_place;

// Functions and instructions in one number.
fn packed(functions: usize, instructions: usize) -> u64
    requires { (functions ≤ most_functions) × (instructions ≤ most_functions * most_instructions) }
    ensures { result ≡ functions * 65536 + instructions }
{
    (functions as u64) * 65536 + (instructions as u64)
}

// The numbers of a refusal.
fn refused_numbers(e: Refusal) -> [u64; 4]
    ensures { result ≡ 0 ∷ number_of e ∷ place_of e ∷ 0 ∷ [] }
{
    [0, u64::from(e.number()), e.place() as u64, 0]
}

// The numbers of a verdict.
fn check_numbers(v: Result<Counts, Refusal>) -> [u64; 4]
    requires { SmallCounts (verdict_meant v) }
    ensures { result ≡ check_numbers (verdict_meant v) }
{
    match v {
        Ok(counts) => {
            [
                1,
                counts.terms as u64,
                counts.names as u64,
                packed(counts.functions, counts.instructions),
            ]
        }
        Err(e) => refused_numbers(e),
    }
}

// The numbers of opening's answer, whichever bytes it leaves, and of the state test's.
fn done_numbers(r: Result<(), Refusal>) -> [u64; 4]
    ensures opened { (t : Bytes) → result ≡ open_numbers (opened_meant r t) }
    ensures tested { result ≡ test_numbers (tested_meant r) }
{
    match r {
        Ok(()) => [1, 0, 0, 0],
        Err(e) => refused_numbers(e),
    }
}

// The numbers of going on's answer, whichever bytes it leaves.
fn go_numbers(r: Result<Went, Refusal>) -> [u64; 4]
    ensures { (t u : Bytes) → result ≡ go_numbers (went_meant r t u) }
{
    match r {
        Ok(Went { outcome, steps }) => match outcome {
            Outcome::Ended(value) => [2, u64::from(value), steps, 0],
            Outcome::Stopped(number) => [3, u64::from(number), steps, 0],
            Outcome::Running => [4, 0, steps, 0],
        },
        Err(e) => refused_numbers(e),
    }
}

// The numbers of the reader's answer, zeros for an empty part. Objects lie at multiples of their size in a page, so that size and
// address give the offset.
fn part_numbers(size: usize, address: u32) -> [u64; 4]
    ensures { result ≡ part_numbers (part_around size address) }
{
    if size == 0 {
        return [0, 0, 0, 0];
    }
    let place = (address % Machine::PAGE_BYTES) as usize / size;
    let offset = page_place(address / Machine::PAGE_BYTES) + size * place;
    [1, offset as u64, size as u64, 0]
}

// The verdict on a module file.
pub fn rcm_check(file: &[u8], answer: &mut [u64; 4])
    ensures { answer.new ≡ check_numbers (verdict_of file.now) }
{
    let v = checker::verdict(file);
    *answer = check_numbers(v);
}

// Opening: the first state of a module.
pub fn rcm_open(file: &[u8], arguments: &[u8], state: &mut [u8], answer: &mut [u64; 4])
    ensures answer { answer.new ≡ open_numbers (open_of file.now arguments.now state.old) }
    ensures state { state.new ≡ left_opened (open_of file.now arguments.now state.old) state.old }
{
    let r = opening::open(file, arguments, state);
    *answer = done_numbers(r);
}

// Going on for at most budget steps.
pub fn rcm_go(
    file: &[u8],
    form: &[u8],
    state: &mut [u8],
    output: &mut [u8],
    budget: u64,
    answer: &mut [u64; 4],
)
    ensures answer { answer.new ≡ go_numbers (go_of file.now form.now state.old output.old budget) }
    ensures state { state.new ≡ left_state (go_of file.now form.now state.old output.old budget) state.old }
    ensures output { output.new ≡ left_output (go_of file.now form.now state.old output.old budget) output.old }
{
    let r = host::go::go(file, form, state, output, budget);
    *answer = go_numbers(r);
}

// The state test.
pub fn rcm_test(file: &[u8], state: &[u8], answer: &mut [u64; 4])
    ensures { answer.new ≡ test_numbers (test_of file.now state.now) }
{
    let r = host::test::state_test(file, state);
    *answer = done_numbers(r);
}

// The object around an address.
pub fn rcm_object(file: &[u8], state: &[u8], address: u32, answer: &mut [u64; 4])
    ensures { answer.new ≡ part_numbers (object_of file.now state.now address) }
{
    let part = host::object::inspect(file, state, address);
    *answer = part_numbers(part.len(), address);
}
