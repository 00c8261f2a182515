// Sets of regions: entry 1 + r is 1 where region r is in the set. Calls and returns find the regions of frames, and the lowest number that
// is not live, by them. The module's region parameters and local regions are two tables by function number. The state is trusted.
#![tactic(auto)]

ghost use Rattle.std.specs.Prelude.{◌≡◌, suc, ◌+◌, ◌<◌, ◌≤◌, length, set};
ghost use Rattle.words.specs.Bytes.{byte_at};
ghost use Rattle.rules.specs.Limits.{state_bytes, most_frames, most_regions, live_regions};
ghost use Rattle.rules.specs.State.{frame_function, frame_map};
ghost use Rattle.rules.specs.Heap.{local_list};
ghost use Rattle.regions.specs.Regions.{marked, lowest_in, live_by, Bounded};

use rules::limits::CALLEES;
use state::fields::{function, region_of};
use state::{LiveRegion, RegionVariable};

// The entries of a set of regions.
pub const SET: usize = 257;

pub fn add_region(a: &mut [u8; SET], r: LiveRegion)
    ensures { a.new ≡ set a.old (suc r.0) 1 }
{
    a[usize::from(r.0) + 1] = 1;
}

// The set with the n regions of frame k from variable lo on.
pub fn add_locals(a: &mut [u8; SET], s: &[u8], k: u32, lo: u32, n: u32)
    requires { (length s.now ≡ state_bytes) × (k < most_frames) × (lo + n ≤ most_regions) }
    ensures { a.new ≡ marked (local_list (frame_map s.now k) lo n) a.old }
{
    for i in 0..n {
        let r = region_of(s, k, RegionVariable(lo + i));
        add_region(a, r);
    }
}

// A table's entry for function g.
pub fn count_of(table: &[u8; CALLEES], g: u8) -> u32
    ensures { (result ≡ byte_at table.now g) × (result < 256) }
{
    u32::from(table[usize::from(g)])
}

// The set with the local regions of the lowest n frames, and how many they are.
pub fn add_frames(
    a: &mut [u8; SET],
    params: &[u8; CALLEES],
    locals: &[u8; CALLEES],
    s: &[u8],
    n: u32,
) -> u32
    requires { (length s.now ≡ state_bytes) × (n ≤ most_frames) × Bounded params.now locals.now }
    ensures { (a.new ≡ marked (live_by params.now locals.now (frame_function s.now) (frame_map s.now) n) a.old) × (result ≡ length (live_by params.now locals.now (frame_function s.now) (frame_map s.now) n)) × (result ≤ live_regions) }
{
    let mut c = 0;
    for k in 0..n {
        let g = function(s, k);
        let m = count_of(locals, g);
        add_locals(a, s, k, count_of(params, g), m);
        c += m;
    }
    c
}

// The lowest region that is not in a set of n regions. (One of the first n + 1 is not: an Option would say what cannot be.)
pub fn lowest_number(a: &[u8; SET], n: u32) -> u32
    requires { n < 255 }
    ensures { (result ≡ lowest_in a.now n) × (result ≤ n + 1) }
{
    (0..n + 1)
        .find(|r| a[*r as usize + 1] == 0)
        .unwrap_or(n + 1)
}
