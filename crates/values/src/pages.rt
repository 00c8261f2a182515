// "each primitive in each owned page is a value of its type": region by region, position by position, page by page, place by place. What
// the objects of a region are is found once, the primitive at a position and where it leads once for all its pages.
ghost use Rattle.std.specs.Prelude.{◌≡◌, ◌≢◌, ℕ, suc, ◌-◌, ◌*◌, ◌<◌, ◌≤◌};
ghost use Rattle.rules.specs.Limits.{pages, page_bytes, size_limit};
ghost use Rattle.rules.specs.File.{untyped_mark};
ghost use Rattle.rules.specs.State.{page_owner};
ghost use Rattle.terms.specs.Heads.{place_of};
ghost use Rattle.stack.specs.Tells.{Tells};
ghost use Rattle.objects.specs.Homes.{StandsAt};
ghost use Rattle.values.specs.Memory.{AimHolds, LastHolds};
ghost use Rattle.values.specs.Passes.{AllPrimitives};
ghost use Rattle.values.specs.Pages.{PlaceOk, OwnedPlaces, OwnedPosition, Apart, Leads, ObjectsAre};

use crate::memory::{Aim, aim_at, pointer_ok};
use marks::places_in;
use memo::Memo;
use objects::{Home, home_of};
use registers::map_of;
use registers::mapped::MappedState;
use rules::limits::SIZE_LIMIT;
use state::Machine;
use terms::{UNTYPED, form};

// What the objects of a page are: the place of their term, the regions put in, their size and how many primitives each has.
#[derive(Clone, Copy)]
pub struct Objects {
    pub place: usize,
    pub to: [u8; 8],
    pub size: usize,
    pub count: usize,
}

// The number of the term at place p.
fn term_at(n: usize, p: usize) -> usize
    requires { p ≤ n }
    ensures { place_of n result ≡ p }
{
    if p == 0 { n } else { p - 1 }
}

// The pointer at distance d of the object at place j of page p, whose objects have this size.
fn place_ok(
    mapped: &MappedState,
    p: u32,
    size: usize,
    d: usize,
    aim: &Aim,
    j: usize,
    memo: &mut Memo,
) -> bool
    requires within { (p < pages) × (d ≤ size_limit) × (size * suc j ≤ page_bytes) }
    requires holds { let s = mapped.now.typed.state in AimHolds s.file.now s.bytes.now s.frames aim.now memo.old }
    ensures { let s = mapped.now.typed.state in (Tells result (PlaceOk s.file.now s.bytes.now s.frames p size aim.now.to aim.now.t d j)) × (AimHolds s.file.now s.bytes.now s.frames aim.now memo.new) }
{
    let x = Machine::PAGE_BYTES * p + (size * j + d) as u32;
    let typed = &mapped.typed;
    pointer_ok(
        typed.state.file,
        typed.terms,
        typed.structs,
        typed.extents,
        typed.state.bytes,
        typed.state.frames,
        aim,
        x,
        memo,
    )
}

fn places_ok(
    mapped: &MappedState,
    p: u32,
    size: usize,
    d: usize,
    aim: &Aim,
    memo: &mut Memo,
) -> bool
    requires within { (p < pages) × (d ≤ size_limit) }
    requires holds { let s = mapped.now.typed.state in AimHolds s.file.now s.bytes.now s.frames aim.now memo.old }
    ensures { let s = mapped.now.typed.state in (Tells result ((j : ℕ) → j < page_bytes → PlaceOk s.file.now s.bytes.now s.frames p size aim.now.to aim.now.t d j)) × (AimHolds s.file.now s.bytes.now s.frames aim.now memo.new) }
{
    for j in 0..places_in(size) {
        if !place_ok(mapped, p, size, d, aim, j, memo) {
            return false;
        }
    }
    true
}

// The same of page q, if its owner is this one.
fn owned_places(
    mapped: &MappedState,
    owner: u8,
    size: usize,
    d: usize,
    aim: &Aim,
    q: u32,
    memo: &mut Memo,
) -> bool
    requires within { (q < pages) × (d ≤ size_limit) }
    requires holds { let s = mapped.now.typed.state in AimHolds s.file.now s.bytes.now s.frames aim.now memo.old }
    ensures { let s = mapped.now.typed.state in (Tells result (OwnedPlaces s.file.now s.bytes.now s.frames owner size aim.now.to aim.now.t d q)) × (AimHolds s.file.now s.bytes.now s.frames aim.now memo.new) }
{
    if state::total::owner(mapped.typed.state.bytes, q) != owner {
        return true;
    }
    places_ok(mapped, q, size, d, aim, memo)
}

// The same of each page with this owner.
fn all_places(
    mapped: &MappedState,
    owner: u8,
    size: usize,
    d: usize,
    aim: &Aim,
    memo: &mut Memo,
) -> bool
    requires within { d ≤ size_limit }
    requires holds { let s = mapped.now.typed.state in AimHolds s.file.now s.bytes.now s.frames aim.now memo.old }
    ensures { let s = mapped.now.typed.state in (Tells result ((q : ℕ) → q < pages → OwnedPlaces s.file.now s.bytes.now s.frames owner size aim.now.to aim.now.t d q)) × (AimHolds s.file.now s.bytes.now s.frames aim.now memo.new) }
{
    for q in 0..Machine::PAGES {
        if !owned_places(mapped, owner, size, d, aim, q, memo) {
            return false;
        }
    }
    true
}

// Primitive i of each object of each page with page p's owner. (An integer's bytes always hold one of its values: nothing is read.) The
// aim of its pointers, if it is one, becomes the last.
fn position_ok(
    mapped: &MappedState,
    p: u32,
    o: &Objects,
    i: usize,
    last: &mut Option<Aim>,
    memo: &mut Memo,
) -> bool
    requires within { let s = mapped.now.typed.state in (p < pages) × (i < o.now.count) × (ObjectsAre s.file.now s.bytes.now s.frames p mapped.now.typed.terms mapped.now.typed.structs o.now) }
    requires last { let s = mapped.now.typed.state in LastHolds s.file.now s.bytes.now s.frames last.old memo.old }
    ensures { let s = mapped.now.typed.state in (Tells result (OwnedPosition s.file.now s.bytes.now s.frames p i)) × (LastHolds s.file.now s.bytes.now s.frames last.new memo.new) }
{
    let f = mapped.typed.state.file;
    let terms = mapped.typed.terms;
    let x = positions::place_prim(
        f,
        terms,
        mapped.typed.structs,
        o.place,
        o.to,
        i,
        mapped.typed.extents,
    );
    let t = term_at(terms, x.place);
    if form(f, terms, t) == 1 {
        return true;
    }
    let aim = aim_at(
        &mapped.typed,
        mapped.typed.state.frames,
        x.to,
        t,
        *last,
        memo,
    );
    *last = Some(aim);
    let owner = state::total::owner(mapped.typed.state.bytes, p);
    all_places(mapped, owner, o.size, x.off, &aim, memo)
}

fn positions_ok(mapped: &MappedState, p: u32, o: &Objects) -> bool
    requires { let s = mapped.now.typed.state in (p < pages) × (ObjectsAre s.file.now s.bytes.now s.frames p mapped.now.typed.terms mapped.now.typed.structs o.now) }
    ensures { let s = mapped.now.typed.state in Tells result ((i : ℕ) → i < o.now.count → OwnedPosition s.file.now s.bytes.now s.frames p i) }
{
    let mut memo = [None; SIZE_LIMIT];
    let mut last = None;
    for i in 0..o.count {
        if !position_ok(mapped, p, o, i, &mut last, &mut memo) {
            return false;
        }
    }
    true
}

// The objects of page p, of the term at the home of its region.
fn objects_of(mapped: &MappedState, p: u32, home: Home) -> Objects
    requires { let s = mapped.now.typed.state in (StandsAt s.file.now s.bytes.now s.frames (page_owner s.bytes.now p - 1) home) × (home.entry ≢ untyped_mark) }
    ensures { let s = mapped.now.typed.state in ObjectsAre s.file.now s.bytes.now s.frames p mapped.now.typed.terms mapped.now.typed.structs result }
{
    let typed = &mapped.typed;
    let map = map_of(typed.state.bytes, home.frame);
    let e = positions::extent_at(
        typed.terms,
        home.entry,
        typed.extents,
        typed.state.file,
        typed.structs,
    );
    Objects {
        place: terms::place_of(typed.terms, home.entry),
        to: positions::held(&map),
        size: e.size,
        count: e.count,
    }
}

fn apart(s: &[u8], owner: u32, q: u32) -> bool
    ensures { Tells result (Apart s.now owner q) }
{
    u32::from(state::total::owner(s, q)) != owner
}

// No page before p has this owner.
fn unseen(s: &[u8], p: u32, owner: u32) -> bool
    ensures { Tells result ((q : ℕ) → q < p → Apart s.now owner q) }
{
    (0..p).all(|q| apart(s, owner, q))
}

// Page p, for all pages of its owner if it is the first of them.
fn page_ok(mapped: &MappedState, p: u32) -> bool
    requires { p < pages }
    ensures { let s = mapped.now.typed.state in Tells result (Leads s.file.now s.bytes.now s.frames p) }
{
    let s = mapped.typed.state.bytes;
    let owner = u32::from(state::total::owner(s, p));
    if owner == 0 {
        return true;
    }
    if !unseen(s, p, owner) {
        return true;
    }
    let state = mapped.typed.state;
    let Some(home) = home_of(&state, state.frames, owner - 1) else {
        return true;
    };
    // untyped bytes are no primitives
    if home.entry == UNTYPED {
        return true;
    }
    let o = objects_of(mapped, p, home);
    positions_ok(mapped, p, &o)
}

pub fn primitives_ok(mapped: &MappedState) -> bool
    ensures { Tells result (AllPrimitives mapped.now.typed.state.file.now mapped.now.typed.state.bytes.now) }
{
    (0..Machine::PAGES).all(|p| page_ok(mapped, p))
}
