// The marks past the last place of a page, in a state that nobody has tested: the state test's clause on them. Nothing is asked of the
// state.
#![tactic(auto)]

ghost use Rattle.std.specs.Prelude.{ℕ, suc, ◌<◌, ◌≤◌};
ghost use Rattle.rules.specs.Limits.{pages, page_bytes, size_limit};
ghost use Rattle.stack.specs.Tells.{Tells};
ghost use Rattle.marks.specs.Ends.{PlacesIn, EndMark, EndsOk, AllEnds};

use objects::typed::TypedState;
use shape::spare::zero;
use state::Machine;

// How many places a page has for objects of this size. (Size 0: all of them, that of no object.)
pub fn places_in(size: usize) -> usize
    ensures { PlacesIn size result }
{
    let all = Machine::PAGE_BYTES as usize;
    if size == 0 {
        return all;
    }
    all / size
}

fn end_mark(s: &[u8], p: u32, size: usize, j: u32) -> bool
    requires { (size ≤ suc size_limit) × (j < page_bytes) }
    ensures { Tells result (EndMark s.now p size j) }
{
    let x = state::total::mark(s, p, j);
    (size * (j as usize + 1) <= Machine::PAGE_BYTES as usize) | (x == 0)
}

// Up to the end of their byte the marks of places that there are not are read one by one, from there on byte by byte.
fn end_marks(s: &[u8], p: u32, size: usize) -> bool
    requires { (size ≤ suc size_limit) × (p < pages) }
    ensures { Tells result ((j : ℕ) → j < page_bytes → EndMark s.now p size j) }
{
    let many = places_in(size);
    let whole = (many + 7) / 8;
    let near = (many as u32..(8 * whole) as u32).all(|j| end_mark(s, p, size, j));
    let marks = state::places::marks_place(p);
    let far = zero(s, marks + whole, marks + Machine::MARK_BYTES);
    near & far
}

fn page_ends(typed: &TypedState, p: u32) -> bool
    requires { p < pages }
    ensures { Tells result (EndsOk typed.now.state.file.now typed.now.state.bytes.now typed.now.state.frames p) }
{
    let owner = u32::from(state::total::owner(typed.state.bytes, p));
    if owner == 0 {
        return true;
    }
    let size = typed.size_of(owner - 1);
    end_marks(typed.state.bytes, p, size)
}

// "used marks beyond the last place of an owned page" are zero.
pub fn ends_ok(typed: &TypedState) -> bool
    ensures { Tells result (AllEnds typed.now.state.file.now typed.now.state.bytes.now) }
{
    (0..Machine::PAGES).all(|p| page_ends(typed, p))
}
