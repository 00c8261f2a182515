// Runs of primitives, and where an untyped pointer's bytes lie: document 01, "Flat types" and "The machine", and document 02, P3; what kinds
// 22, 23, 27, 28 and 39 and the state test ask of types. All but the last ask
// for the table of extents, and nothing of the file's contents. A substitution is lent as bytes, that of variable 0 first.
#![tactic(auto)]

ghost use Rattle.std.specs.Prelude.{◌≡◌, ◌↔◌, IsTrue, suc, ◌+◌, ◌<◌, ◌≤◌, length};
ghost use Rattle.words.specs.Decide.{does};
ghost use Rattle.rules.specs.Limits.{size_limit, page_bytes};
ghost use Rattle.rules.specs.Types.{RegionKind, variable, live, sub};
ghost use Rattle.rules.specs.Flat.{flat, count, dec_placed, dec_run, moved, sub_layout};
ghost use Rattle.rules.specs.Decode.{module_of};
ghost use Rattle.terms.specs.Compare.{under};
ghost use Rattle.positions.specs.Table.{Table, term_layout};
ghost use Rattle.positions.specs.Positions.{Keeps, placed_of};
ghost use Rattle.runs.specs.Entries.{Compared};
ghost use Rattle.runs.specs.Runs.{RunAtIs, InPageIs, StandsIs, UntypedIs};

use positions::Primitive;
use rules::limits::{MOST_STRUCTS, SIZE_LIMIT};
use state::Machine;
use terms::{Live, UNTYPED};

// Of so few primitives, a descent for each is cheaper than writing the terms out.
const SHORT: usize = 2;

// Whether x is y, `from` bytes further.
fn same_prim(f: &[u8], x: Primitive, from: usize, y: Primitive) -> bool
    ensures { (j : RegionKind) → result ≡ does (dec_placed (placed_of j f.now x) (moved from (placed_of j f.now y))) }
{
    if x.off < from {
        return false;
    }
    if (x.place == y.place) & flattening::agree(x.to, y.to) {
        return x.off - from == y.off;
    }
    (x.off - from == y.off) & equality::same_places(f, x.place, &x.to, y.place, &y.to)
}

// Whether the `many` primitives of the term at place b under q are those of the term at place a under p, from position d on: by a descent
// for each.
fn short_run(
    f: &[u8],
    n: usize,
    k: usize,
    a: usize,
    p: [u8; 8],
    d: usize,
    b: usize,
    q: [u8; 8],
    many: usize,
    tab: &[u64],
) -> bool
    requires { (Table f.now n k tab.now) × (a ≤ n) × (b ≤ n) × (Keeps p) × (Keeps q) × (many ≡ count (term_layout f.now k b)) × (0 < many) × (d + many ≤ count (term_layout f.now k a)) }
    ensures { (j : RegionKind) → result ≡ does (dec_run (sub_layout (under {k = j} p) (term_layout f.now k a)) d (sub_layout (under q) (term_layout f.now k b))) }
{
    let first = positions::place_prim(f, n, k, a, p, d, tab);
    let from = first.off;
    if !same_prim(f, first, from, positions::place_prim(f, n, k, b, q, 0, tab)) {
        return false;
    }
    for i in 1..many {
        let x = positions::place_prim(f, n, k, a, p, d + i, tab);
        let y = positions::place_prim(f, n, k, b, q, i, tab);
        if !same_prim(f, x, from, y) {
            return false;
        }
    }
    true
}

// Whether the `many` primitives written into the latter entries are those of the former, from entry d on.
fn entries_same(
    f: &[u8],
    entries: &[Primitive; SIZE_LIMIT],
    d: usize,
    entries2: &[Primitive; SIZE_LIMIT],
    many: usize,
) -> bool
    requires { (0 < many) × (d + many ≤ size_limit) }
    ensures { Compared f.now entries.now d entries2.now many result }
{
    let from = entries[d].off;
    for i in 0..many {
        if !same_prim(f, entries[d + i], from, entries2[i]) {
            return false;
        }
    }
    true
}

// The same, over both terms written out.
fn written_run(
    f: &[u8],
    n: usize,
    k: usize,
    a: usize,
    p: [u8; 8],
    d: usize,
    b: usize,
    q: [u8; 8],
    many: usize,
    tab: &[u64],
) -> bool
    requires { (Table f.now n k tab.now) × (a ≤ n) × (b ≤ n) × (Keeps p) × (Keeps q) × (many ≡ count (term_layout f.now k b)) × (0 < many) × (d + many ≤ count (term_layout f.now k a)) }
    ensures { (j : RegionKind) → result ≡ does (dec_run (sub_layout (under {k = j} p) (term_layout f.now k a)) d (sub_layout (under q) (term_layout f.now k b))) }
{
    let none = Primitive {
        off: 0,
        place: 0,
        to: [0; 8],
    };
    let mut entries = [none; SIZE_LIMIT];
    let mut entries2 = [none; SIZE_LIMIT];
    let mut seen = [None; MOST_STRUCTS];
    let mut seen2 = [None; MOST_STRUCTS];
    flattening::term_written(f, n, k, a, p, 0, &mut entries, &mut seen, 0, tab);
    flattening::term_written(f, n, k, b, q, 0, &mut entries2, &mut seen2, 0, tab);
    entries_same(f, &entries, d, &entries2, many)
}

// The same, by whichever is cheaper.
fn run_places(
    f: &[u8],
    n: usize,
    k: usize,
    a: usize,
    p: [u8; 8],
    d: usize,
    b: usize,
    q: [u8; 8],
    many: usize,
    tab: &[u64],
) -> bool
    requires { (Table f.now n k tab.now) × (a ≤ n) × (b ≤ n) × (Keeps p) × (Keeps q) × (many ≡ count (term_layout f.now k b)) × (0 < many) × (d + many ≤ count (term_layout f.now k a)) }
    ensures { (j : RegionKind) → result ≡ does (dec_run (sub_layout (under {k = j} p) (term_layout f.now k a)) d (sub_layout (under q) (term_layout f.now k b))) }
{
    if many > SHORT {
        return written_run(f, n, k, a, p, d, b, q, many, tab);
    }
    short_run(f, n, k, a, p, d, b, q, many, tab)
}

// Whether the run of term t under q stands at position d of term u under p (kind 23).
pub fn run_from(
    f: &[u8],
    n: usize,
    k: usize,
    u: usize,
    p: &[u8],
    d: usize,
    t: usize,
    q: &[u8],
    tab: &[u64],
) -> bool
    requires { (Table f.now n k tab.now) × (length p.now ≤ 8) × (length q.now ≤ 8) }
    ensures { let m = module_of f.now in (result ≡ does (dec_run (flat m (sub (under {k = variable} p.now) (m.term u))) d (flat m (sub (under q.now) (m.term t))))) × (result ≡ does (dec_run (flat m (sub (under {k = live} p.now) (m.term u))) d (flat m (sub (under q.now) (m.term t))))) }
{
    let a = terms::place_of(n, u);
    let b = terms::place_of(n, t);
    let most = positions::extent_in(tab, a).count;
    let many = positions::extent_in(tab, b).count;
    if many == 0 || most < d || most - d < many {
        return false;
    }
    run_places(
        f,
        n,
        k,
        a,
        positions::held(p),
        d,
        b,
        positions::held(q),
        many,
        tab,
    )
}

// Whether the run of term t under q stands at byte o of the type u of a region, under p: none stands in an untyped one.
pub fn run_at(
    f: &[u8],
    n: usize,
    k: usize,
    u: usize,
    p: &[u8],
    o: usize,
    t: usize,
    q: &[u8],
    tab: &[u64],
) -> bool
    requires { (Table f.now n k tab.now) × (length p.now ≤ 8) × (length q.now ≤ 8) }
    ensures { RunAtIs f.now u p.now o t q.now result }
{
    if u == UNTYPED {
        return false;
    }
    let d = positions::position_at(f, n, k, u, o, tab);
    run_from(f, n, k, u, p, d, t, q, tab)
}

// ---- addresses

// Whether the run of term t under q stands at byte x of a page whose objects are of type u under p, inside one object.
pub fn in_page(
    f: &[u8],
    n: usize,
    k: usize,
    u: usize,
    p: &[u8],
    x: usize,
    t: usize,
    q: &[u8],
    tab: &[u64],
) -> bool
    requires { (Table f.now n k tab.now) × (length p.now ≤ 8) × (length q.now ≤ 8) × (x < page_bytes) }
    ensures { InPageIs f.now u p.now x t q.now result }
{
    let size = positions::extent_at(n, u, tab, f, k).size;
    if size == 0 || x / size * size + size > Machine::PAGE_BYTES as usize {
        return false;
    }
    run_at(f, n, k, u, p, x % size, t, q, tab)
}

// Whether the owner of a page is region r: an owner is one more than its region's number, and 0 where the page is free.
fn owned(owner: u8, r: Live) -> bool
    ensures { IsTrue result ↔ (owner ≡ suc r.0) }
{
    usize::from(owner) == usize::from(r.0) + 1
}

// Kind 22, and a pointer that is not zero: whether address a is one of the run of term t under q in live region r, whose objects
// are of type u under p. `owner` is the owner of the page of a.
pub fn stands(
    f: &[u8],
    n: usize,
    k: usize,
    r: Live,
    owner: u8,
    u: usize,
    p: &[u8],
    a: u32,
    t: usize,
    q: &[u8],
    tab: &[u64],
) -> bool
    requires { (Table f.now n k tab.now) × (length p.now ≤ 8) × (length q.now ≤ 8) }
    ensures { StandsIs f.now r.0 owner u p.now a t q.now result }
{
    if a >= Machine::MEMORY_BYTES || !owned(owner, r) {
        return false;
    }
    in_page(f, n, k, u, p, (a % Machine::PAGE_BYTES) as usize, t, q, tab)
}

// An untyped pointer that is not zero: whether `size` bytes from address a on lie in one page of live region r, of type u, which is untyped.
// `owner` is the owner of the page of a.
pub fn in_untyped(r: Live, owner: u8, u: usize, a: u32, size: usize) -> bool
    requires { size < 4294967296 }
    ensures { UntypedIs r.0 owner u a size result }
{
    if a >= Machine::MEMORY_BYTES || !owned(owner, r) || u != UNTYPED {
        return false;
    }
    (a % Machine::PAGE_BYTES) as usize + size <= Machine::PAGE_BYTES as usize
}
