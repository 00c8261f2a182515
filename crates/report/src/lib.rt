// Document 01's program as a function: from the bytes of the files `module` and `form` the text that it prints. Reading the files and
// writing the text is left to the program.
#![tactic(auto)]

ghost use Rattle.std.specs.Prelude.{◌≡◌, [], ◌+◌, ◌≤◌, length, replicate};
ghost use Rattle.rules.specs.Limits.{state_bytes};
ghost use Rattle.rules.specs.Host.{open_of};
ghost use Rattle.lines.specs.Lines.{second_line, printed};
ghost use Rattle.lines.specs.Writing.{Puts, most_line};
ghost use Rattle.report.specs.Report.{answer_line};

use host::go::{Went, go};
use lines::{checked_line, pair_line, refusal_line, running_line};
use opening::open;
use rules::Refusal;
use run::Outcome;
use state::Machine;

// Two lines have room in it.
pub const REPORT_BYTES: usize = 256;

// "goes 1,000,000 steps"
const BUDGET: u64 = 1000000;

// The line of going on's answer.
fn went_line(out: &mut [u8], at: usize, w: Result<Went, Refusal>) -> usize
    requires { at + most_line ≤ length out.old }
    ensures { Puts out.old out.new at result (answer_line w) × (result ≤ at + most_line) }
{
    match w {
        Ok(Went { outcome, steps }) => match outcome {
            Outcome::Ended(value) => pair_line(out, at, b"ended", u64::from(value), steps),
            Outcome::Stopped(number) => pair_line(out, at, b"stopped", u64::from(number), steps),
            Outcome::Running => running_line(out, at, steps),
        },
        Err(e) => refusal_line(out, at, e),
    }
}

// Opening without arguments, and of an opened module going on, over a state and an output of zeros.
fn open_and_go(file: &[u8], form: &[u8]) -> Result<Went, Refusal>
    ensures { second_line file.now form.now (open_of file.now [] (replicate state_bytes 0)) ≡ answer_line result }
{
    let mut state = [0u8; Machine::STATE_BYTES];
    let mut output = [0u8; Machine::OUTPUT_BYTES];
    open(file, b"", &mut state)?;
    go(file, form, &mut state, &mut output, BUDGET)
}

// The text, from the start of `out` on, and its length. The bytes behind it are left as they were.
pub fn report(file: &[u8], form: &[u8], out: &mut [u8; REPORT_BYTES]) -> usize
    ensures { Puts out.old out.new 0 result (printed file.now form.now) × (result ≤ length out.new) }
{
    let v = checker::verdict(file);
    let n = checked_line(out, 0, v);
    match v {
        Ok(_) => went_line(out, n, open_and_go(file, form)),
        Err(_) => n,
    }
}
