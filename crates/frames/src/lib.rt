// Kind 33 in code: the frame that a call makes. The module's region parameters and local regions are two tables by function number. The
// state is trusted: nothing is tested that an accepted module and a tested state guarantee.
#![tactic(auto)]

ghost use Rattle.std.specs.Prelude.{◌≡◌, [], ◌∷◌, ℕ, suc, ◌+◌, ◌<◌, ◌≤◌, length, set};
ghost use Rattle.words.specs.Bytes.{byte_at};
ghost use Rattle.rules.specs.Limits.{state_bytes, most_frames, most_registers, most_regions, most_entries, live_regions};
ghost use Rattle.rules.specs.State.{frame_function, frame_register, frame_map, written, put_frames, put_frame};
ghost use Rattle.state.specs.Puts.{after};
ghost use Rattle.state.specs.NewFrame.{put_region};
ghost use Rattle.state.specs.Filling.{put_registers, put_regions};
ghost use Rattle.regions.specs.Regions.{lowest_in, filled, number_in, live_by, Bounded};
ghost use Rattle.frames.specs.Packed.{packed};
ghost use Rattle.frames.specs.Entered.{begun, entered_map, entered_registers, Operands};

use regions::{SET, add_frames, add_region, count_of, lowest_number};
use rules::limits::CALLEES;
use state::fields::{new_frame, put_frames, put_region, put_register, region_of, register};
use state::{LiveRegion, RegionVariable};

// The lowest region that is not in the set of n regions, into the set and into map entry v of frame t.
fn put_local(a: &mut [u8; SET], n: u32, s: &mut [u8], t: u32, v: u32)
    requires { (length s.old ≡ state_bytes) × (n < 255) × (t < most_frames) × (v < most_regions) }
    ensures { (s.new ≡ after (put_region t v (lowest_in a.old n)) s.old) × (a.new ≡ set a.old (suc (lowest_in a.old n)) 1) }
{
    let r = lowest_number(a, n) as u8;
    put_region(s, t, RegionVariable(v), LiveRegion(r));
    add_region(a, LiveRegion(r));
}

// The m map entries of frame t from lo on: the lowest regions that are not in the set of n regions, in order.
fn put_locals(a: &mut [u8; SET], n: u32, s: &mut [u8], t: u32, lo: u32, m: u32)
    requires { (length s.old ≡ state_bytes) × (n ≤ live_regions) × (t < most_frames) × (lo + m ≤ most_regions) }
    ensures { (s.new ≡ put_regions t lo (number_in a.old n) m s.old) × (a.new ≡ filled a.old n m) }
{
    for i in 0..m {
        put_local(a, n + i, s, t, lo + i);
    }
}

// The first n registers of frame t: those of frame k that the bytes of xs name.
fn put_arguments(s: &mut [u8], k: u32, t: u32, xs: u64, n: u32)
    requires { (length s.old ≡ state_bytes) × (k < t) × (t < most_frames) × (n ≤ most_registers) × ((i : ℕ) → i < n → packed xs i < most_registers) }
    ensures { s.new ≡ put_registers t (λ i. frame_register s.old k (packed xs i)) n s.old }
{
    let mut m = xs;
    for i in 0..n {
        let v = register(s, k, (m % 256) as u32);
        put_register(s, t, i, v);
        m /= 256;
    }
}

// The first n map entries of frame t: the live regions to which frame k's map leads from the variables in rs.
fn put_parameters(s: &mut [u8], k: u32, t: u32, rs: u32, n: u32)
    requires { (length s.old ≡ state_bytes) × (k < t) × (t < most_frames) × (n ≤ most_regions) × ((i : ℕ) → i < n → packed rs i < most_regions) }
    ensures { s.new ≡ put_regions t 0 (λ i. frame_map s.old k (packed rs i)) n s.old }
{
    let mut m = rs;
    for i in 0..n {
        let r = region_of(s, k, RegionVariable(m % 256));
        put_region(s, t, RegionVariable(i), r);
        m /= 256;
    }
}

// Frame t for a call of function g by frame k, without its local regions: p arguments xs, n regions rs.
fn begin(s: &mut [u8], k: u32, t: u32, g: u8, n: u32, p: u32, xs: u64, rs: u32)
    requires { (length s.old ≡ state_bytes) × (k < t) × (t < most_frames) × (n ≤ most_regions) × (p ≤ most_entries) × Operands p xs n rs }
    ensures { s.new ≡ begun s.old k t g n p xs rs }
{
    new_frame(s, t, g);
    put_arguments(s, k, t, xs, p);
    put_parameters(s, k, t, rs, n);
}

// The frame above k for a call of function g: p arguments xs, its region parameters rs, its local regions the lowest numbers not live.
fn make_frame(
    params: &[u8; CALLEES],
    locals: &[u8; CALLEES],
    s: &mut [u8],
    k: u32,
    g: u8,
    p: u32,
    xs: u64,
    rs: u32,
)
    requires { (length s.old ≡ state_bytes) × (k + 1 < most_frames) × (p ≤ most_entries) × Bounded params.now locals.now × Operands p xs (byte_at params.now g) rs }
    ensures { s.new ≡ after (put_frame (suc k) g (entered_map (frame_map s.old k) rs (byte_at params.now g) (byte_at locals.now g) (live_by params.now locals.now (frame_function s.old) (frame_map s.old) (suc k))) (entered_registers (frame_register s.old k) xs p)) s.old }
{
    let t = k + 1;
    let n = count_of(params, g);
    let m = count_of(locals, g);
    if 0 < m {
        let mut a = [0u8; SET];
        let c = add_frames(&mut a, params, locals, s, t);
        begin(s, k, t, g, n, p, xs, rs);
        put_locals(&mut a, c, s, t, n, m);
    } else {
        begin(s, k, t, g, n, p, xs, rs);
    }
}

// A call of function g by frame k, which is the top frame.
pub fn enter(
    params: &[u8; CALLEES],
    locals: &[u8; CALLEES],
    s: &mut [u8],
    k: u32,
    g: u8,
    p: u32,
    xs: u64,
    rs: u32,
)
    requires { (length s.old ≡ state_bytes) × (k + 1 < most_frames) × (p ≤ most_entries) × Bounded params.now locals.now × Operands p xs (byte_at params.now g) rs }
    ensures { s.new ≡ written (put_frame (suc k) g (entered_map (frame_map s.old k) rs (byte_at params.now g) (byte_at locals.now g) (live_by params.now locals.now (frame_function s.old) (frame_map s.old) (suc k))) (entered_registers (frame_register s.old k) xs p) ∷ put_frames (suc (suc k)) ∷ []) s.old }
{
    make_frame(params, locals, s, k, g, p, xs, rs);
    put_frames(s, (k + 2) as u8);
}
