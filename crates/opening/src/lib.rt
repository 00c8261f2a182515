// Opening: the first state of an accepted module, function 0 with its arguments.
#![tactic(auto)]

ghost use Rattle.rules.specs.Verdict.{verdict_of, IsAccepted};
ghost use Rattle.rules.specs.Host.{open_of, open_at};
ghost use Rattle.opening.specs.Opening.{OpenedBy};

use rules::{PageRange, Refusal};
use state::Machine;
use state::range::all_pages;

// Of an accepted module: the arguments first, then the state's length.
fn open_accepted(
    range: PageRange,
    file: &[u8],
    arguments: &[u8],
    s: &mut [u8],
) -> Result<(), Refusal>
    requires { IsAccepted (verdict_of file.now) }
    ensures { OpenedBy result s.old s.new (open_at range file.now arguments.now s.old) }
{
    let h = opened::head_of(file, 0);
    let params = walk::file::parameters_of(h);
    if arguments.len() != 4 * params {
        return Err(Refusal::Input);
    }
    if s.len() != Machine::STATE_BYTES {
        return Err(Refusal::Length);
    }
    Machine::fresh(range, arguments, s, params, u32::from(h.b));
    Ok(())
}

// Opening, of the machine with this range. It looks at no byte of the old state, and a refusal leaves them as they were.
pub fn open_at(range: PageRange, file: &[u8], arguments: &[u8], s: &mut [u8]) -> Result<(), Refusal>
    ensures { OpenedBy result s.old s.new (open_at range file.now arguments.now s.old) }
{
    checker::verdict(file)?;
    open_accepted(range, file, arguments, s)
}

// Opening, of document 01's machine.
pub fn open(file: &[u8], arguments: &[u8], s: &mut [u8]) -> Result<(), Refusal>
    ensures { OpenedBy result s.old s.new (open_of file.now arguments.now s.old) }
{
    open_at(all_pages(), file, arguments, s)
}
