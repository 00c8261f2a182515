// Kind 22 in code: a number becomes a pointer where a run of the pointer's target stands at that address. The types are the file's, each
// closed by the top frame's map. And kind 39: it becomes an untyped pointer where its bytes lie in one page of its region.
#![tactic(auto)]

ghost use Rattle.std.specs.Prelude.{◌≡◌, ℕ, ◌+◌, ◌<◌, length, get_or};
ghost use Rattle.rules.specs.Limits.{most_frames, most_regions, state_bytes};
ghost use Rattle.rules.specs.Module.{Module};
ghost use Rattle.rules.specs.Decode.{module_of};
ghost use Rattle.rules.specs.State.{view, frame_map};
ghost use Rattle.positions.specs.Table.{Table};
ghost use Rattle.positions.specs.Maps.{Narrow, map_list};
ghost use Rattle.prepared.specs.Program.{kind, register_a};
ghost use Rattle.prepared.specs.Plain.{plain_stands, plain_arithmetic, plain_memory};
ghost use Rattle.prepared.specs.Ready.{Ready};
ghost use Rattle.effects.specs.Does.{Placed, Done, Here, ReadyFirst};

use effects::Next;
use effects::apply::stop_for;
use effects::parts::{immediate_of, region_term, region_variable, register_b, target_term};
use effects::registers::register;
use rules::stop::Stop;
use state::fields::region_of;
use state::{Machine, RegionVariable};
use terms::{Live, UNTYPED};

// The live region of variable i, as the byte that comparisons take.
fn entry(s: &[u8], k: u32, i: u32) -> u8
    requires { (length s.now ≡ state_bytes) × (k < most_frames) × (i < most_regions) }
    ensures { result ≡ frame_map s.now k i }
{
    let live = region_of(s, k, RegionVariable(i));
    live.0
}

fn map_of(s: &[u8], k: u32) -> [u8; 7]
    requires { (length s.now ≡ state_bytes) × (k < most_frames) }
    ensures { result ≡ map_list s.now k }
{
    [
        entry(s, k, 0),
        entry(s, k, 1),
        entry(s, k, 2),
        entry(s, k, 3),
        entry(s, k, 4),
        entry(s, k, 5),
        entry(s, k, 6),
    ]
}

// Whether the run of the target stands at address a, which may be any number.
fn stands_at(
    w: u64,
    x: u64,
    file: &[u8],
    terms: usize,
    structs: usize,
    extents: &[u64],
    s: &[u8],
    k: u32,
    a: u32,
) -> bool
    requires { Ready s.now k w x × (kind w ≡ 22) × Table file.now terms structs extents.now × Narrow file.now }
    ensures { result ≡ plain_stands (module_of file.now) (view s.now) k w x a }
{
    let map = map_of(s, k);
    let r = entry(s, k, region_variable(w));
    let owner = state::total::owner(s, a / Machine::PAGE_BYTES);
    let u = region_term(x);
    let t = target_term(x);
    runs::stands(
        file,
        terms,
        structs,
        Live(r),
        owner,
        u,
        &map,
        a,
        t,
        &map,
        extents,
    )
}

// Register a becomes the pointer that register b holds, or the run stops with 32.
pub fn check(
    w: u64,
    file: &[u8],
    terms: usize,
    structs: usize,
    extents: &[u64],
    code: &[u64],
    s: &mut [u8],
    t: Machine,
) -> Next
    requires { Here code.now t w s.old × (kind w ≡ 22) × Table file.now terms structs extents.now × Narrow file.now }
    ensures { Done t (register_a w) (plain_arithmetic (module_of file.now) (view s.old) t.frame (kind w) w (get_or code.now (t.at + 1) 0)) s.old result s.new }
{
    let a = register(s, t, register_b(w));
    if a == 0 {
        return stop_for(s, t, Stop::CheckFails);
    }
    let x = code[t.at + 1];
    if stands_at(w, x, file, terms, structs, extents, s, t.frame, a) {
        Next::Put(a)
    } else {
        stop_for(s, t, Stop::CheckFails)
    }
}

// 39: the region is untyped by the rule of its kind, which leaves its page and the bytes that the type counts.
pub fn check_bytes(w: u64, s: &mut [u8], t: Machine) -> Next
    requires { ReadyFirst s.old t.frame w × Placed t × (kind w ≡ 39) }
    ensures { (m : Module) (x : ℕ) → Done t (register_a w) (plain_memory m (view s.old) t.frame (kind w) w x) s.old result s.new }
{
    let z = register(s, t, register_b(w));
    if z == 0 {
        return stop_for(s, t, Stop::CheckFails);
    }
    let r = entry(s, t.frame, region_variable(w));
    let owner = state::total::owner(s, z / Machine::PAGE_BYTES);
    let n = immediate_of(w) as usize;
    if runs::in_untyped(Live(r), owner, UNTYPED, z, n) {
        Next::Put(z)
    } else {
        stop_for(s, t, Stop::CheckFails)
    }
}
