// Going on twice: the second call gets the state as the first one left it. What this ensures is what demand 3 claims of two calls
// (`twice_meets`, specs/Calls.antt).
ghost use Rattle.rules.specs.Host.{go_of};
ghost use Rattle.host.specs.Calls.{WentTwice};

use crate::go::{Went, go};
use rules::Refusal;

// The answers of both calls.
#[derive(Clone, Copy)]
pub struct Both {
    pub first: Result<Went, Refusal>,
    pub second: Result<Went, Refusal>,
}

// A module goes on with a form, and from where that leaves it with a later one. The first call writes o in at most budget steps, the
// second p in at most `more`.
pub fn go_twice(
    file: &[u8],
    form: &[u8],
    later: &[u8],
    s: &mut [u8],
    o: &mut [u8],
    p: &mut [u8],
    budget: u64,
    more: u64,
) -> Both
    ensures { WentTwice result s.old s.new o.old o.new p.old p.new (λ x. go_of file.now form.now x o.old budget) (λ x. go_of file.now later.now x p.old more) }
{
    let first = go(file, form, s, o, budget);
    let second = go(file, later, s, p, more);
    Both { first, second }
}
