// The state test of lent bytes against a module file.
ghost use Rattle.std.specs.Prelude.{◌≡◌};
ghost use Rattle.rules.specs.Verdict.{verdict_of, IsAccepted};
ghost use Rattle.rules.specs.Host.{test_of, test_at};
ghost use Rattle.host.specs.Testing.{tested_meant};

use crate::tables::{passes, tables_of};
use rules::{PageRange, Refusal};
use state::Machine;
use state::range::all_pages;

// Of an accepted module: the length first.
fn test_accepted(range: PageRange, file: &[u8], s: &[u8]) -> Result<(), Refusal>
    requires { IsAccepted (verdict_of file.now) }
    ensures { tested_meant result ≡ test_at range file.now s.now }
{
    if s.len() != Machine::STATE_BYTES {
        return Err(Refusal::Length);
    }
    let t = tables_of(file);
    if passes(range, file, t, s) {
        Ok(())
    } else {
        Err(Refusal::State)
    }
}

// The state test, of the machine with this range.
pub fn state_test_at(range: PageRange, file: &[u8], s: &[u8]) -> Result<(), Refusal>
    ensures { tested_meant result ≡ test_at range file.now s.now }
{
    checker::verdict(file)?;
    test_accepted(range, file, s)
}

// The state test, of document 01's machine.
pub fn state_test(file: &[u8], s: &[u8]) -> Result<(), Refusal>
    ensures { tested_meant result ≡ test_of file.now s.now }
{
    state_test_at(all_pages(), file, s)
}
