// Objects of a state that nobody has tested: which frame's type a live region has, the extent of its objects, and the object around an
// address. Nothing is asked of the state.
#![tactic(auto)]

ghost use Rattle.std.specs.Prelude.{◌≡◌, suc, ◌<◌, ◌≤◌};
ghost use Rattle.rules.specs.Limits.{size_limit, page_bytes};
ghost use Rattle.rules.specs.Flat.{flat, size};
ghost use Rattle.rules.specs.Decode.{module_of};
ghost use Rattle.rules.specs.State.{frame_map};
ghost use Rattle.terms.specs.Extents.{Small};
ghost use Rattle.terms.specs.Readers.{entry_type};
ghost use Rattle.positions.specs.Table.{Table, exact_of};
ghost use Rattle.stack.specs.Facts.{Known};
ghost use Rattle.objects.specs.Homes.{numbered, last_of, last_local, entry_at, region_tree, HomeIs, part_at, IsPart, part_or_none, object_around};

pub mod typed;

use rules::limits::CALLEES;
use stack::untested::UntestedState;
use state::Machine;
use terms::{Extent, UNTYPED};
use typed::TypedState;

// Where a region's type stands: the frame, and what record 8 says there, a term or UNTYPED.
#[derive(Clone, Copy)]
pub struct Home {
    pub frame: u32,
    pub entry: usize,
}

// A part of the state: where it starts, and its size, 0 of an empty part.
#[derive(Clone, Copy)]
pub struct Area {
    pub offset: usize,
    pub size: usize,
}

// ---- where a region's type stands

// The last of the n entries from a on that leads to r.
fn local_of(state: &UntestedState, k: u32, a: u32, n: u32, r: u32) -> Option<u32>
    requires { (a < 256) × (n < 256) }
    ensures { numbered result ≡ last_of (frame_map state.now.bytes.now k) a n r }
{
    for j in (0..n).rev() {
        if state.region(k, a + j) == r {
            return Some(j);
        }
    }
    None
}

// The last local region of frame k that is r.
fn local_in(state: &UntestedState, k: u32, r: u32) -> Option<u32>
    ensures { (numbered result ≡ last_local state.now.file.now state.now.bytes.now k r) × (numbered result < 256) }
{
    let h = state.head(k);
    local_of(state, k, u32::from(h.a), u32::from(h.b), r)
}

// What record 8 says of region variable i of frame k's function.
fn entry_of(state: &UntestedState, k: u32, i: u32) -> usize
    ensures { result ≡ entry_at state.now.file.now state.now.bytes.now k i }
{
    let g = usize::from(state::total::function(state.bytes, k));
    let at = walk::tables::start_of(state.file, state.starts, g);
    let x = walk::file::record_at(state.file, at + 1);
    walk::file::entry_of(x, i as usize)
}

// Of n frames: the home of region r, if it is live: the highest frame to which it is local. (Callers lend a copy of the state that they
// hold: what this call has a reference to lies in memory, and is read again wherever it is used.)
pub fn home_of(state: &UntestedState, n: u32, r: u32) -> Option<Home>
    ensures { HomeIs state.now.file.now state.now.bytes.now n r result }
{
    for k in (0..n).rev() {
        if let Some(i) = local_in(state, k, r) {
            let h = state.head(k);
            let entry = entry_of(state, k, u32::from(h.a) + i);
            return Some(Home { frame: k, entry });
        }
    }
    None
}

// ---- what its objects are

// Size and number of primitives of the objects of a region whose type is entry v of record 8: the places of an untyped one are a byte
// each, without a primitive.
pub fn extent_of(terms: usize, v: usize, tab: &[u64], f: &[u8], structs: usize) -> Extent
    requires { Table f.now terms structs tab.now }
    ensures { (result ≡ exact_of (flat (module_of f.now) (entry_type f.now v))) × (Small result) }
{
    if v == UNTYPED {
        return Extent { size: 1, count: 0 };
    }
    positions::extent_at(terms, v, tab, f, structs)
}

impl TypedState<'_> {
    // The same of the state's file.
    pub fn extent_of(&self, v: usize) -> Extent
        ensures { (result ≡ exact_of (flat (module_of self.now.state.file.now) (entry_type self.now.state.file.now v))) × (Small result) }
    {
        extent_of(self.terms, v, self.extents, self.state.file, self.structs)
    }

    // Those of region r. (Where it is not live, an integer of no bytes. One more than the limit stands for no size.)
    fn region_extent(&self, r: u32) -> Extent
        ensures { (result ≡ exact_of (flat (module_of self.now.state.file.now) (region_tree self.now.state.file.now self.now.state.bytes.now self.now.state.frames r))) × (Small result) }
    {
        let state = self.state;
        match home_of(&state, state.frames, r) {
            Some(home) => self.extent_of(home.entry),
            None => Extent { size: 0, count: 1 },
        }
    }

    // The size of the objects of region r, 0 where it is not live.
    pub fn size_of(&self, r: u32) -> usize
        ensures { (result ≡ size (module_of self.now.state.file.now) (region_tree self.now.state.file.now self.now.state.bytes.now self.now.state.frames r)) × (result ≤ suc size_limit) }
    {
        self.region_extent(r).size
    }

    // The object around address a, used or free. (The places of an untyped page are no objects.)
    fn object_around(&self, a: u32) -> Option<Area>
        ensures { IsPart (part_or_none result) (object_around self.now.state.file.now self.now.state.bytes.now a) }
    {
        let p = a / Machine::PAGE_BYTES;
        let owner = u32::from(state::total::owner(self.state.bytes, p));
        if owner == 0 {
            return None;
        }
        let e = self.region_extent(owner - 1);
        // no primitives: an untyped region, or a type without size
        if e.count == 0 {
            return None;
        }
        object_in(p, (a % Machine::PAGE_BYTES) as usize, e.size)
    }
}

// ---- the reader

// In page p, whose objects have this size: the object around byte x.
fn object_in(p: u32, x: usize, size: usize) -> Option<Area>
    requires { (x < page_bytes) × (size ≤ suc size_limit) }
    ensures { IsPart (part_or_none result) (part_at p x size) }
{
    if size == 0 {
        return None;
    }
    let y = x / size * size;
    if y + size > Machine::PAGE_BYTES as usize {
        return None;
    }
    let o = state::places::page_place(p);
    Some(Area {
        offset: o + y,
        size,
    })
}

// The whole object around address a, used or free. (The places of an untyped page are no objects: the part is empty.)
pub fn object<'a>(
    f: &'a [u8],
    starts: &'a [usize; CALLEES],
    functions: usize,
    terms: usize,
    structs: usize,
    tab: &'a [u64],
    s: &'a [u8],
    a: u32,
) -> Area
    requires fact_1 { Known f.now starts.now functions }
    requires fact_2 { Table f.now terms structs tab.now }
    ensures { IsPart result (object_around f.now s.now a) }
{
    let state = UntestedState {
        file: f,
        starts,
        functions,
        bytes: s,
        frames: u32::from(state::total::frames(s)),
    };
    let typed = TypedState {
        state,
        terms,
        structs,
        extents: tab,
    };
    typed
        .object_around(a)
        .unwrap_or(Area { offset: 0, size: 0 })
}
