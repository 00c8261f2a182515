// Length and header: "status, result and output count are in range"; frames are "1-16, none once ended".
ghost use Rattle.std.specs.Prelude.{◌≡◌};
ghost use Rattle.words.specs.Decide.{does};
ghost use Rattle.rules.specs.State.{view};
ghost use Rattle.rules.specs.StateTest.{dec_status};
ghost use Rattle.stack.specs.Tells.{Tells};
ghost use Rattle.shape.specs.Header.{HeaderOk};

use rules::limits::{OUTPUT_FULL, ZERO_ADDRESS};
use state::Machine;

pub fn status_ok(s: &[u8]) -> bool
    ensures { result ≡ does (dec_status (view s.now)) }
{
    let status = state::total::status(s);
    let n = state::total::frames(s);
    let result = state::total::result(s);
    let open = (0 < n) & (result == 0);
    ((status == 0) & open)
        | ((((ZERO_ADDRESS <= status) & (status <= OUTPUT_FULL)) & open)
            | ((status == 1) & (n == 0)))
}

pub fn header_ok(s: &[u8]) -> bool
    ensures { Tells result (HeaderOk s.now) }
{
    let status = status_ok(s);
    let count = state::total::output_count(s);
    ((s.len() == Machine::STATE_BYTES) & status) & ((count as usize) <= Machine::OUTPUT_BYTES)
}
