// Kind 36 in code (document 02, P3): places of one byte, 256 to a page, as many in a row as are asked for. None of them becomes free before
// its region closes, so that the used ones of a page are mostly its first: a search passes over each of them once, and then knows them. (It has its own scan:
// kind 27's functions keep one caller each, and stay compiled into the step.)
ghost use Rattle.std.specs.Prelude.{◌≡◌, ◌+◌, ◌*◌, ◌<◌, ◌≤◌, length};
ghost use Rattle.std.specs.Option.{SomeIff};
ghost use Rattle.rules.specs.Limits.{state_bytes, pages, page_bytes, live_regions};
ghost use Rattle.rules.specs.State.{low_page, end_page, view, page_mark, written};
ghost use Rattle.rules.specs.Step.{run_starts, unused_place};
ghost use Rattle.pages.specs.Places.{take_writes, grant_writes};
ghost use Rattle.pages.specs.Known.{UsedBelow, Used};
ghost use Rattle.pages.specs.Meaning.{chosen, Within};

use crate::{Chosen, KNOWN, unowned_page};
use state::fields::{clear_memory, mark, owner, put_owner, range, set_marks};
use state::range::{end_page, low_page};
use state::{LiveRegion, Machine};

// The first of c unused places in a row of page p; the places below from are used. (The scan ends where no run can start any more: of what
// stands behind, no place is read.)
fn lowest_run(s: &[u8], p: u32, from: u32, c: u32) -> Option<u32>
    requires { (length s.now ≡ state_bytes) × (p < pages) × (0 < c) × (c ≤ page_bytes) × UsedBelow s.now p from }
    ensures { SomeIff result (unused_place (page_mark s.now) page_bytes c p < run_starts page_bytes c) (unused_place (page_mark s.now) page_bytes c p) }
{
    if Machine::PAGE_BYTES - c < from {
        return None;
    }
    let mut start = from;
    for k in from..Machine::PAGE_BYTES {
        if mark(s, p, k) != 0 {
            start = k + 1;
            if Machine::PAGE_BYTES < start + c {
                return None;
            }
        } else if k + 1 == start + c {
            return Some(start);
        }
    }
    None
}

// The same, where the table says what is known of page p. It gets how many places, from the first on, were found to be used.
fn run_in(s: &[u8], known: &mut [u32; KNOWN], p: u32, c: u32) -> Option<u32>
    requires { (length s.now ≡ state_bytes) × (p < pages) × (0 < c) × (c ≤ page_bytes) × Used known.old s.now }
    ensures { SomeIff result (unused_place (page_mark s.now) page_bytes c p < run_starts page_bytes c) (unused_place (page_mark s.now) page_bytes c p) × Used known.new s.now }
{
    let i = p as usize;
    let from = lowest_run(s, p, known[i], 1).unwrap_or(Machine::PAGE_BYTES);
    known[i] = from;
    lowest_run(s, p, from, c)
}

// What c bytes in a row of region r take of the pages that the machine may own, if they find any: rules' `allocate_in` for c places of one
// byte (chosen-from).
pub fn allocate_bytes(s: &[u8], known: &mut [u32; KNOWN], r: LiveRegion, c: u32) -> Option<Chosen>
    requires { (length s.now ≡ state_bytes) × (0 < c) × (c ≤ page_bytes) × Used known.old s.now }
    ensures { (result ≡ chosen (view s.now).owner (view s.now).mark (low_page (view s.now).range) (end_page (view s.now).range) r.0 page_bytes c) × Within pages (run_starts page_bytes c) result × Used known.new s.now }
{
    let own = range(s);
    let low = low_page(own);
    let past = end_page(own);
    for p in low..past {
        if u32::from(owner(s, p)) == u32::from(r.0) + 1 {
            if let Some(j) = run_in(s, known, p, c) {
                return Some(Chosen::Place(p, j));
            }
        }
    }
    unowned_page(s, low, past).map(Chosen::Page)
}

// The c bytes of page p from place j on are used now and all zeros; the address of the first.
pub fn take_bytes(s: &mut [u8], p: u32, j: u32, c: u32) -> u32
    requires { (length s.old ≡ state_bytes) × (p < pages) × (j + c ≤ page_bytes) }
    ensures { (result ≡ page_bytes * p + 1 * j) × (s.new ≡ written (take_writes s.old p j c 1) s.old) }
{
    let x = Machine::PAGE_BYTES * p + j;
    set_marks(s, p, j, c);
    clear_memory(s, x, c);
    x
}

// Page p is granted to region r, zeroed whole, its first c bytes used.
pub fn grant_bytes(s: &mut [u8], p: u32, r: LiveRegion, c: u32)
    requires { (length s.old ≡ state_bytes) × (p < pages) × (r.0 < live_regions) × (c ≤ page_bytes) }
    ensures { s.new ≡ written (grant_writes s.old p r.0 c) s.old }
{
    clear_memory(s, Machine::PAGE_BYTES * p, Machine::PAGE_BYTES);
    put_owner(s, p, r.0 + 1);
    set_marks(s, p, 0, c);
}
