// A pointer in the pages, typed or untyped, as a value of a term, whose regions are given as bytes. (An integer's bytes always hold one of
// its values.)
ghost use Rattle.std.specs.Prelude.{◌≡◌, ◌<◌, ◌^◌};
ghost use Rattle.rules.specs.State.{view, memory_number};
ghost use Rattle.positions.specs.Table.{Table};
ghost use Rattle.positions.specs.Maps.{Narrow};
ghost use Rattle.stack.specs.Tells.{Tells};
ghost use Rattle.values.specs.Memory.{Points, PrimitiveAt, TargetIs, AimHolds, LastHolds, AimsAt};

use memo::{Memo, forget, stands_known};
use objects::typed::TypedState;
use objects::{Home, home_of};
use registers::map_of;
use runs::in_untyped;
use state::Machine;
use state::total::memory_byte;
use terms::{Live, form, inner, live_of, number, target_region};

// The four bytes from address x on, one by one.
fn bytes(s: &[u8], x: u32) -> u32
    requires { x < 2 ^ 30 }
    ensures { result ≡ memory_number (view s.now).memory x 4 }
{
    u32::from_le_bytes([
        memory_byte(s, x),
        memory_byte(s, x + 1),
        memory_byte(s, x + 2),
        memory_byte(s, x + 3),
    ])
}

// The four bytes from address x on: one load but at the end of the memory.
fn word(s: &[u8], x: u32) -> u32
    requires { x < 2 ^ 30 }
    ensures { result ≡ memory_number (view s.now).memory x 4 }
{
    if x + 4 <= Machine::MEMORY_BYTES {
        return words::word(s, state::places::memory_place(x));
    }
    bytes(s, x)
}

// Where the pointers of a term lead.
#[derive(Clone, Copy)]
pub enum Target {
    // nowhere: their region is not live
    Nowhere,
    // to so many untyped bytes of live region `region`
    Untyped {
        region: u8,
        home: Home,
        many: usize,
    },
    // to a run of term `run` in live region `region`, whose objects have this size, under the map of its home's frame
    Run {
        region: u8,
        home: Home,
        map: [u8; 7],
        size: usize,
        run: usize,
    },
}

// Of n frames: where pointers of term t under `to` lead.
pub fn target_of(typed: &TypedState, n: u32, to: [u8; 8], t: usize) -> Target
    requires { Points typed.now.state.file.now t }
    ensures { let s = typed.now.state in TargetIs s.file.now s.bytes.now n to t result }
{
    let state = typed.state;
    let f = state.file;
    let terms = typed.terms;
    let region = live_of(&to, target_region(f, terms, t)).0;
    let Some(home) = home_of(&state, n, u32::from(region)) else {
        return Target::Nowhere;
    };
    if form(f, terms, t) == 11 {
        let many = number(f, terms, t);
        return Target::Untyped { region, home, many };
    }
    let map = map_of(state.bytes, home.frame);
    let e = typed.extent_of(home.entry);
    let run = inner(f, terms, t);
    Target::Run {
        region,
        home,
        map,
        size: e.size,
        run,
    }
}

// Pointers of term t under `to`, and where they lead.
#[derive(Clone, Copy)]
pub struct Aim {
    pub t: usize,
    pub to: [u8; 8],
    pub target: Target,
}

// Of n frames: the aim of pointers of term t under `to`: the last one, with what is remembered of it, if they are of the same type.
pub fn aim_at(
    typed: &TypedState,
    n: u32,
    to: [u8; 8],
    t: usize,
    last: Option<Aim>,
    memo: &mut Memo,
) -> Aim
    requires points { Points typed.now.state.file.now t }
    requires last { let s = typed.now.state in LastHolds s.file.now s.bytes.now n last memo.old }
    ensures { let s = typed.now.state in AimsAt s.file.now s.bytes.now n to t result memo.new }
{
    if let Some(aim) = last {
        let there = terms::place_of(typed.terms, aim.t);
        let here = terms::place_of(typed.terms, t);
        if equality::same_places(typed.state.file, there, &aim.to, here, &to) {
            return aim;
        }
    }
    let target = target_of(typed, n, to, t);
    forget(memo);
    Aim { t, to, target }
}

// Of n frames: the pointer at address x: zero, or where its run stands, or its bytes lie. (The aim is lent, not copied: it is asked for
// each place of each page.)
pub fn pointer_ok(
    f: &[u8],
    terms: usize,
    structs: usize,
    tab: &[u64],
    s: &[u8],
    n: u32,
    aim: &Aim,
    x: u32,
    memo: &mut Memo,
) -> bool
    requires table { Table f.now terms structs tab.now }
    requires narrow { Narrow f.now }
    requires address { x < 2 ^ 30 }
    requires holds { AimHolds f.now s.now n aim.now memo.old }
    ensures { (Tells result (PrimitiveAt f.now s.now n aim.now.to aim.now.t x)) × (AimHolds f.now s.now n aim.now memo.new) }
{
    let v = word(s, x);
    if v == 0 {
        return true;
    }
    match &aim.target {
        Target::Nowhere => false,
        Target::Untyped { region, home, many } => {
            let owner = state::total::owner(s, v / Machine::PAGE_BYTES);
            in_untyped(Live(*region), owner, home.entry, v, *many)
        }
        Target::Run {
            region,
            home,
            map,
            size,
            run,
        } => {
            let owner = state::total::owner(s, v / Machine::PAGE_BYTES);
            stands_known(
                f,
                terms,
                structs,
                Live(*region),
                owner,
                home.entry,
                map,
                *size,
                v,
                *run,
                &aim.to,
                tab,
                memo,
            )
        }
    }
}
