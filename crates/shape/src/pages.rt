// "page 0 is unowned; owners are live; unowned pages have no used marks": owned pages are in the range, where page 0 never is.
ghost use Rattle.std.specs.Prelude.{◌<◌};
ghost use Rattle.rules.specs.Limits.{pages};
ghost use Rattle.stack.specs.Tells.{Tells};
ghost use Rattle.shape.specs.Pages.{PageOk, PagesOk};

use crate::spare::zero;
use stack::untested::UntestedState;
use state::Machine;
use state::range::{end_page, low_page};

// Page p, where the range is the pages low to past - 1. (A page without used marks has 32 zero bytes of them.)
fn page_ok(state: &UntestedState, low: u32, past: u32, p: u32) -> bool
    requires { p < pages }
    ensures { Tells result (PageOk state.now.file.now state.now.bytes.now state.now.frames low past p) }
{
    let owner = u32::from(state::total::owner(state.bytes, p));
    if owner == 0 {
        let marks = state::places::marks_place(p);
        return zero(state.bytes, marks, marks + Machine::MARK_BYTES);
    }
    let dead = state.not_live(state.frames, owner);
    ((low <= p) & (p < past)) & !dead
}

pub fn pages_ok(state: &UntestedState) -> bool
    ensures { Tells result (PagesOk state.now.file.now state.now.bytes.now) }
{
    let range = state::total::range(state.bytes);
    let low = low_page(range);
    let past = end_page(range);
    (0..Machine::PAGES).all(|p| page_ok(state, low, past, p))
}
