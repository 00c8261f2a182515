// The lines that the program prints, written one behind the other into lent bytes. A line has at most 93 bytes: a word of
// eight, four numbers of twenty digits, each behind a space, and the end.
#![tactic(auto)]

ghost use Rattle.std.specs.Prelude.{◌≡◌, [], ◌∷◌, ◌+◌, ◌*◌, ◌<◌, ◌≤◌, length};
ghost use Rattle.rules.specs.Refusals.{number_of, place_of, verdict_meant};
ghost use Rattle.lines.specs.Lines.{digit as digitOf, space, decimal, line_of, verdict_line, refused_line, accepted_word, running_word};
ghost use Rattle.lines.specs.Writing.{Puts, pair_of, most_digits, most_line};
ghost use Rattle.lines.specs.Said.{verdict_said};

use rules::{Counts, Refusal};

// A digit as ASCII.
fn digit(d: u64) -> u8
    requires { d < 10 }
    ensures { result ≡ digitOf d }
{
    48 + d as u8
}

// The digits of n from `at` on; where they end.
fn put_digits(out: &mut [u8], at: usize, n: u64) -> usize
    requires { at + length (decimal n) ≤ length out.old }
    ensures { Puts out.old out.new at result (decimal n) }
{
    if n < 10 {
        out[at] = digit(n);
        at + 1
    } else {
        let end = put_digits(out, at, n / 10);
        out[end] = digit(n % 10);
        end + 1
    }
}

// A space and the digits of n.
fn put_number(out: &mut [u8], at: usize, n: u64) -> usize
    requires { at + (most_digits + 1) ≤ length out.old }
    ensures { Puts out.old out.new at result (space ∷ decimal n) × (result ≤ at + (most_digits + 1)) }
{
    out[at] = b' ';
    put_digits(out, at + 1, n)
}

// A text from `at` on.
fn put_text(out: &mut [u8], at: usize, text: &[u8]) -> usize
    requires { at + length text.now ≤ length out.old }
    ensures { Puts out.old out.new at result text.now }
{
    let end = at + text.len();
    out[at..end].copy_from_slice(text);
    end
}

// Two numbers, each behind a space.
fn put_pair(out: &mut [u8], at: usize, x: u64, y: u64) -> usize
    requires { at + 2 * (most_digits + 1) ≤ length out.old }
    ensures { Puts out.old out.new at result (pair_of x y) × (result ≤ at + 2 * (most_digits + 1)) }
{
    let i = put_number(out, at, x);
    put_number(out, i, y)
}

// A word of at most eight bytes and two numbers.
pub fn pair_line(out: &mut [u8], at: usize, word: &[u8], x: u64, y: u64) -> usize
    requires { (length word.now ≤ 8) × (at + most_line ≤ length out.old) }
    ensures { Puts out.old out.new at result (line_of word.now (x ∷ y ∷ [])) × (result ≤ at + most_line) }
{
    let i = put_text(out, at, word);
    let j = put_pair(out, i, x, y);
    out[j] = b'\n';
    j + 1
}

// `refused`, number, place.
pub fn refused_line(out: &mut [u8], at: usize, number: u64, place: u64) -> usize
    requires { at + most_line ≤ length out.old }
    ensures { Puts out.old out.new at result (refused_line number place) × (result ≤ at + most_line) }
{
    pair_line(out, at, b"refused", number, place)
}

// The line of a refusal.
pub fn refusal_line(out: &mut [u8], at: usize, e: Refusal) -> usize
    requires { at + most_line ≤ length out.old }
    ensures { Puts out.old out.new at result (refused_line (number_of e) (place_of e)) × (result ≤ at + most_line) }
{
    refused_line(out, at, u64::from(e.number()), e.place() as u64)
}

// `running`, steps.
pub fn running_line(out: &mut [u8], at: usize, steps: u64) -> usize
    requires { at + most_line ≤ length out.old }
    ensures { Puts out.old out.new at result (line_of running_word (steps ∷ [])) × (result ≤ at + most_line) }
{
    let i = put_text(out, at, b"running");
    let j = put_number(out, i, steps);
    out[j] = b'\n';
    j + 1
}

// `accepted`, terms, names, functions, instructions.
fn accepted_line(out: &mut [u8], at: usize, counts: Counts) -> usize
    requires { at + most_line ≤ length out.old }
    ensures { Puts out.old out.new at result (line_of accepted_word (counts.terms ∷ counts.names ∷ counts.functions ∷ counts.instructions ∷ [])) × (result ≤ at + most_line) }
{
    let h = put_text(out, at, b"accepted");
    let i = put_pair(out, h, counts.terms as u64, counts.names as u64);
    let j = put_pair(out, i, counts.functions as u64, counts.instructions as u64);
    out[j] = b'\n';
    j + 1
}

// The line of a verdict: what an accepted module has, or the number and the place of a refusal, whichever these are.
pub fn verdict_line(out: &mut [u8], at: usize, v: Result<Counts, (usize, usize)>) -> usize
    requires { at + most_line ≤ length out.old }
    ensures { Puts out.old out.new at result (verdict_line (verdict_said v)) × (result ≤ at + most_line) }
{
    match v {
        Ok(counts) => accepted_line(out, at, counts),
        Err((number, place)) => refused_line(out, at, number as u64, place as u64),
    }
}

// The line of the checker's answer.
pub fn checked_line(out: &mut [u8], at: usize, v: Result<Counts, Refusal>) -> usize
    requires { at + most_line ≤ length out.old }
    ensures { Puts out.old out.new at result (verdict_line (verdict_meant v)) × (result ≤ at + most_line) }
{
    match v {
        Ok(counts) => verdict_line(out, at, Ok(counts)),
        Err(e) => verdict_line(out, at, Err((usize::from(e.number()), e.place()))),
    }
}
