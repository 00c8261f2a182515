// Kinds 27 and 28 in code: the lowest unused place of a page, the lowest page with room or without an owner, and what a new or a freed
// object writes. The state is trusted: nothing is tested that an accepted module and a tested state guarantee.
#![tactic(auto)]

ghost use Rattle.std.specs.Prelude.{◌≡◌, [], ◌∷◌, ◌+◌, ◌*◌, ◌<◌, ◌≤◌, length};
ghost use Rattle.std.specs.Option.{SomeIff};
ghost use Rattle.words.specs.Bytes.{Bytes};
ghost use Rattle.rules.specs.Limits.{state_bytes, pages, page_bytes, live_regions, mark_bytes};
ghost use Rattle.rules.specs.State.{low_page, end_page, view, page_owner, page_mark, written, put_mark};
ghost use Rattle.rules.specs.Heap.{places_in_page};
ghost use Rattle.rules.specs.Step.{unused_place, unowned_page};
ghost use Rattle.state.specs.Marks.{lowest_zero};
ghost use Rattle.pages.specs.Search.{Found, NoneBefore};
ghost use Rattle.pages.specs.Places.{open_byte, FullBelow, take_writes, grant_writes};
ghost use Rattle.pages.specs.Known.{known_entries, UsedBelow, Used, lowered, forgot, remembered};
ghost use Rattle.pages.specs.Meaning.{chosen, Within};

use state::fields::{clear_mark, clear_memory, owner, put_owner, range, set_mark};
use state::places::marks_place;
use state::range::{end_page, low_page};
use state::{LiveRegion, Machine};

pub mod bytes;

// What a new object takes: a place of a page that its region has, or the first place of a page that it is granted.
#[derive(Clone, Copy)]
pub enum Chosen {
    Place(u32, u32),
    Page(u32),
}

// What the search for room returns: a page with a place in it, if there is one, and the last page that it looked at.
#[derive(Clone, Copy)]
pub struct Room {
    pub found: Option<(u32, u32)>,
    pub last: u32,
}

// ---- places

// How many objects of a size a page holds.
pub fn places_in_page(size: u32) -> u32
    requires { 0 < size }
    ensures { (result ≡ places_in_page size) × (result ≤ page_bytes) }
{
    Machine::PAGE_BYTES / size
}

// The lowest bit of a byte that is 0, or 8.
fn lowest_zero(b: u8) -> u32
    ensures { (result ≡ lowest_zero b) × (result ≤ 8) }
{
    b.trailing_ones()
}

// The first byte of page p's marks that has an unused place; the bytes below from have none.
fn open_byte(s: &[u8], p: u32, from: usize) -> Option<usize>
    requires { (length s.now ≡ state_bytes) × (p < pages) × (from ≤ mark_bytes) × FullBelow s.now p from }
    ensures { SomeIff result (open_byte s.now p < mark_bytes) (open_byte s.now p) }
{
    let at = marks_place(p);
    (from..Machine::MARK_BYTES).find(|i| s[at + *i] != 255)
}

// The lowest unused place of page p, or n, the number of its places; the places below from are used. (A byte of 255 is eight used places.
// It is a number and no Option, as the table of searches takes n as well.)
fn lowest_place(s: &[u8], p: u32, from: u32, n: u32) -> u32
    requires { (length s.now ≡ state_bytes) × (p < pages) × (n ≤ page_bytes) × UsedBelow s.now p from }
    ensures { result ≡ unused_place (page_mark s.now) n 1 p }
{
    if n <= from {
        return n;
    }
    match open_byte(s, p, (from / 8) as usize) {
        Some(i) => {
            let at = marks_place(p) + i;
            let j = 8 * (i as u32) + lowest_zero(s[at]);
            if j < n { j } else { n }
        }
        None => n,
    }
}

// ---- pages

// The table `known` has an entry for each page: how many of its places, from the first on, are known to be used. Behind them stands a hint,
// where the last place was found: 1 + its region (0: there is no hint), the places to a page, and the page. The region's pages below that
// one have no place for such objects, so that the next search for one starts there. (In a run a live region's objects have one size; the
// table knows no types.)
const HINT_REGION: usize = Machine::PAGES as usize;

const HINT_PLACES: usize = HINT_REGION + 1;

const HINT_PAGE: usize = HINT_REGION + 2;

pub const KNOWN: usize = HINT_REGION + 3;

// The lowest of the pages low to past - 1 that nobody owns.
pub fn unowned_page(s: &[u8], low: u32, past: u32) -> Option<u32>
    requires { (length s.now ≡ state_bytes) × (past ≤ pages) }
    ensures { SomeIff result (unowned_page (page_owner s.now) low past < past) (unowned_page (page_owner s.now) low past) }
{
    (low..past).find(|q| owner(s, *q) == 0)
}

// The lowest unused place of page p, of n. The table gets what was found.
fn place_in(s: &[u8], known: &mut [u32; KNOWN], p: u32, n: u32) -> Option<u32>
    requires { (length s.now ≡ state_bytes) × (p < pages) × (n ≤ page_bytes) × Used known.old s.now }
    ensures { SomeIff result (unused_place (page_mark s.now) n 1 p < n) (unused_place (page_mark s.now) n 1 p) × Used known.new s.now }
{
    let i = p as usize;
    let j = lowest_place(s, p, known[i], n);
    known[i] = j;
    if j < n { Some(j) } else { None }
}

// The lowest of the pages low to past - 1 that is region r's and has an unused place, with its lowest. The search looks at the region's own
// pages alone and ends at the first with room; the last that it looked at is 0 where the region has none.
pub fn find_room(
    s: &[u8],
    known: &mut [u32; KNOWN],
    low: u32,
    past: u32,
    r: LiveRegion,
    n: u32,
) -> Room
    requires { (length s.now ≡ state_bytes) × (past ≤ pages) × (n ≤ page_bytes) × Used known.old s.now }
    ensures { Found (page_owner s.now) (page_mark s.now) low past r.0 n 1 result.found result.last × Used known.new s.now }
{
    let mut last = 0;
    for p in low..past {
        if u32::from(owner(s, p)) == u32::from(r.0) + 1 {
            match place_in(s, known, p, n) {
                Some(j) => {
                    return Room {
                        found: Some((p, j)),
                        last: p,
                    };
                }
                None => {
                    last = p;
                }
            }
        }
    }
    Room {
        found: None,
        last: last,
    }
}

// Where a search from page low on may start: at the hint's page, if the hint is for region r and n places to a page. (Nothing is asked of
// that page but that it is not below low: whatever it is, the pages before it have no room.)
fn search_start(known: &[u32; KNOWN], low: u32, r: LiveRegion, n: u32) -> u32
    ensures { (s : Bytes) → Used known.now s → low ≡ low_page (view s).range → NoneBefore (page_owner s) (page_mark s) low result r.0 n 1 }
{
    if (known[HINT_REGION] == u32::from(r.0) + 1)
        & (known[HINT_PLACES] == n)
        & (low <= known[HINT_PAGE])
    {
        known[HINT_PAGE]
    } else {
        low
    }
}

// The hint from now on: region r has a place in page p, of n to a page.
fn remember(known: &mut [u32; KNOWN], r: LiveRegion, n: u32, p: u32)
    ensures { known.new ≡ remembered known.old r.0 n p }
{
    known[HINT_REGION] = u32::from(r.0) + 1;
    known[HINT_PLACES] = n;
    known[HINT_PAGE] = p;
}

// What a new object of region r takes of the pages that the machine may own, n places to a page, if it finds any: rules' `allocate_in` for
// objects of a size with n places (chosen-from).
pub fn allocate(s: &[u8], known: &mut [u32; KNOWN], r: LiveRegion, n: u32) -> Option<Chosen>
    requires { (length s.now ≡ state_bytes) × (n ≤ page_bytes) × Used known.old s.now }
    ensures { (result ≡ chosen (view s.now).owner (view s.now).mark (low_page (view s.now).range) (end_page (view s.now).range) r.0 n 1) × Within pages n result × Used known.new s.now }
{
    let own = range(s);
    let low = low_page(own);
    let past = end_page(own);
    let from = search_start(known, low, r, n);
    let x = find_room(s, known, from, past, r, n);
    match x.found {
        Some((p, j)) => {
            remember(known, r, n, p);
            Some(Chosen::Place(p, j))
        }
        None => unowned_page(s, low, past).map(Chosen::Page),
    }
}

// Entry i is at most x from now on.
fn lower(known: &mut [u32; KNOWN], i: usize, x: u32)
    requires { i < known_entries }
    ensures { known.new ≡ lowered known.old i x }
{
    if x < known[i] {
        known[i] = x;
    }
}

// Place j of page q may be free from now on: a search may not pass over it, nor start behind its page.
pub fn forget(known: &mut [u32; KNOWN], q: u32, j: u32)
    requires { q < pages }
    ensures { known.new ≡ forgot known.old q j }
{
    lower(known, q as usize, j);
    lower(known, HINT_PAGE, q);
}

// ---- writes

// Place j of page p, of n bytes, is used now and all zeros; its address. (The zeros come before the mark: the other way round the loop of
// steps keeps less in registers.)
pub fn take_place(s: &mut [u8], p: u32, j: u32, n: u32) -> u32
    requires { (length s.old ≡ state_bytes) × (p < pages) × (j < page_bytes) × (n * j + n ≤ page_bytes) }
    ensures { (result ≡ page_bytes * p + n * j) × (s.new ≡ written (take_writes s.old p j 1 n) s.old) }
{
    let page = Machine::PAGE_BYTES * p;
    let x = page + n * j;
    clear_memory(s, x, n);
    set_mark(s, p, j);
    x
}

// Place j of page p is free now.
pub fn free_place(s: &mut [u8], p: u32, j: u32)
    requires { (length s.old ≡ state_bytes) × ((p < pages) × (j < page_bytes)) }
    ensures { s.new ≡ written (put_mark s.old p j 0 ∷ []) s.old }
{
    clear_mark(s, p, j);
}

// Page p is granted to region r, zeroed whole, its first place used.
pub fn grant_page(s: &mut [u8], p: u32, r: LiveRegion)
    requires { (length s.old ≡ state_bytes) × (p < pages) × (r.0 < live_regions) }
    ensures { s.new ≡ written (grant_writes s.old p r.0 1) s.old }
{
    clear_memory(s, Machine::PAGE_BYTES * p, Machine::PAGE_BYTES);
    put_owner(s, p, r.0 + 1);
    set_mark(s, p, 0);
}
