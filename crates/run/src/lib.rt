// A run with a budget: steps over prepared words until the budget is used, the module ends or a step stops; and what came of it.
#![tactic(auto)]

ghost use Rattle.std.specs.Prelude.{◌≡◌, length};
ghost use Rattle.rules.specs.Limits.{state_bytes};
ghost use Rattle.rules.specs.State.{view};
ghost use Rattle.rules.specs.Host.{outcome_of};
ghost use Rattle.run.specs.Outcomes.{outcome_meant};

pub mod run;

use state::fields::status;
use state::total::result;

// What came of a run: the budget is used, the module ended with a value, or it stopped for a reason.
#[derive(Clone, Copy)]
pub enum Outcome {
    Running,
    Ended(u32),
    Stopped(u8),
}

// The outcome, as it stands in the state that a run leaves.
pub fn outcome_of(s: &[u8]) -> Outcome
    requires { length s.now ≡ state_bytes }
    ensures { outcome_meant result ≡ outcome_of (view s.now) }
{
    let n = status(s);
    if n == 0 {
        Outcome::Running
    } else if n == 1 {
        Outcome::Ended(result(s))
    } else {
        Outcome::Stopped(n)
    }
}
