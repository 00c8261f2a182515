// Positions of primitives: document 01, "Flat types"; sizes, counts and distances that kinds 23, 24, 27 and 28, preparing and the state
// test ask for. A table of extents is filled once for a file; all else asks for that table, and nothing of the file's contents.
// A substitution is lent as bytes, that of variable 0 first, and held as eight.
#![tactic(auto)]

ghost use Rattle.std.specs.Prelude.{◌≡◌, ℕ, ◌+◌, ◌*◌, ◌/◌, ◌<◌, ◌≤◌, length};
ghost use Rattle.rules.specs.Limits.{size_limit};
ghost use Rattle.rules.specs.Flat.{flat, count, size, distance, position_at};
ghost use Rattle.rules.specs.Decode.{module_of};
ghost use Rattle.layout.specs.Prims.{nth};
ghost use Rattle.terms.specs.Compare.{byte_under};
ghost use Rattle.terms.specs.Heads.{head_of};
ghost use Rattle.terms.specs.Extents.{Terms, Counted, Small};
ghost use Rattle.positions.specs.Table.{core_no, core_from, Fits, pack, entry_at, core_at, Bare, Ends, CoreIs, Few, Ranged, Known, Table, exact_of, term_layout, struct_layout, own_byte};
ghost use Rattle.positions.specs.Positions.{Keeps, Agree, arg_byte, Found};
ghost use Rattle.positions.specs.Distances.{Lower, ElementIs};

use rules::limits::MOST_TERMS;
use std::array;
use terms::{Extent, Head};

// A primitive: its distance in bytes, and the place of its term with the regions put for its variables.
#[derive(Clone, Copy)]
pub struct Primitive {
    pub off: usize,
    pub place: usize,
    pub to: [u8; 8],
}

// What is left of a term when arrays of one are taken off, and structs whose only field is a struct: the way to a primitive passes none of them.
#[derive(Clone, Copy)]
pub enum Core {
    // the term at a place, which is no struct
    Term(usize),
    // the fields of a struct, for four regions, a byte of `regions` each
    Fields { number: usize, regions: usize },
}

// ---- entries

// A core as a number, and back: structs come behind the places of terms, and their regions above CORES. (A table is lent to the crates above
// as `&[u64]`, so an entry is one number.)
const FIRST_STRUCT: usize = MOST_TERMS + 1;

const CORES: usize = 512;

fn core_no(core: Core) -> usize
    requires { Fits core }
    ensures { result ≡ core_no core }
{
    match core {
        Core::Term(c) => c,
        Core::Fields { number, regions } => FIRST_STRUCT + number + CORES * regions,
    }
}

fn core_from(x: usize) -> Core
    ensures { result ≡ core_from x }
{
    let low = x % CORES;
    if low < FIRST_STRUCT {
        Core::Term(low)
    } else {
        Core::Fields {
            number: low - FIRST_STRUCT,
            regions: x / CORES,
        }
    }
}

// An extent and a core as one number of the table.
fn entry(e: Extent, core: Core) -> u64
    requires { (Small e) × (Fits core) }
    ensures { result ≡ pack e core }
{
    (e.size + 1024 * e.count + 1048576 * core_no(core)) as u64
}

// The extent at place p, from the table. Place 0 is i8.
pub fn extent_in(tab: &[u64], p: usize) -> Extent
    ensures { result ≡ entry_at tab.now p }
{
    if p == 0 {
        return Extent { size: 1, count: 1 };
    }
    let x = tab.get(p - 1).copied().unwrap_or(0);
    Extent {
        size: (x % 1024) as usize,
        count: (x / 1024 % 1024) as usize,
    }
}

// The core of the term at place p, from the table.
pub fn core_in(tab: &[u64], p: usize) -> Core
    ensures { result ≡ core_at tab.now p }
{
    if p == 0 {
        return Core::Term(0);
    }
    let x = tab.get(p - 1).copied().unwrap_or(0);
    core_from((x / 1048576) as usize)
}

// ---- substitutions

// What `to` puts for variable v: 255 where it has none.
fn byte_or(to: &[u8], v: usize) -> u8
    ensures { result ≡ byte_under to.now v }
{
    to.get(v).copied().unwrap_or(255)
}

// The byte for region j of a struct term whose number d holds `count` regions, under `to`: 255 where there is none.
fn argument(d: usize, count: usize, to: &[u8], j: usize) -> u8
    ensures { result ≡ arg_byte to.now d count j }
{
    if j < count {
        byte_or(to, terms::digit(d, j))
    } else {
        255
    }
}

// The substitution for the fields of a struct.
fn substituted<const N: usize>(d: usize, count: usize, to: &[u8]) -> [u8; N]
    requires { count ≤ N }
    ensures { (v : ℕ) → byte_under result v ≡ arg_byte to.now d count v }
{
    array::from_fn(|j| argument(d, count, to, j))
}

// The same for four regions, held as eight.
pub fn arguments(d: usize, to: &[u8]) -> [u8; 8]
    ensures { (v : ℕ) → byte_under result v ≡ arg_byte to.now d 4 v }
{
    substituted(d, 4, to)
}

// The byte for region j of a struct term whose number d holds `count` regions: 255 where there is none.
fn own(d: usize, count: usize, j: usize) -> u8
    requires { d < 4294967296 }
    ensures { result ≡ own_byte d count j }
{
    if j < count {
        terms::digit(d, j) as u8
    } else {
        255
    }
}

// A struct term's own arguments.
fn own_arguments(d: usize, count: usize) -> [u8; 4]
    requires { (count ≤ 4) × (d < 4294967296) }
    ensures { (v : ℕ) → byte_under result v ≡ own_byte d count v }
{
    array::from_fn(|j| own(d, count, j))
}

// Four regions as one number, a byte each.
fn joined(to: [u8; 4]) -> usize
    ensures { (result < 4294967296) × ((v : ℕ) → byte_under to v ≡ own_byte result 4 v) }
{
    u32::from_le_bytes(to) as usize
}

// A lent substitution of at most eight regions, held.
pub fn held(to: &[u8]) -> [u8; 8]
    requires { length to.now ≤ 8 }
    ensures { Agree result to.now }
{
    array::from_fn(|v| byte_or(to, v))
}

// ---- cores

// A struct, for four regions, a byte of the number each.
#[derive(Clone, Copy)]
struct Inner {
    number: usize,
    regions: usize,
}

// The term at place p with arrays of one taken off, by place.
fn bare(f: &[u8], p: usize) -> usize
    ensures { Bare f.now p result }
{
    match terms::head_of(f, p) {
        Head::Arr { count: 1, inner } => bare(f, inner),
        _ => p,
    }
}

// A struct under `to`, with structs whose only field is a struct taken off.
fn innermost(f: &[u8], n: usize, number: usize, to: [u8; 4]) -> Inner
    requires { (number < 256) × (Keeps to) × (Terms f.now n) × ((p : ℕ) → p ≤ n → Few (head_of f.now p)) }
    ensures { Ends f.now number to result.number result.regions }
{
    let first = n + 2 * number;
    let x = walk::file::record_at(f, first);
    if x.b == 1 {
        let y = walk::file::record_at(f, first + 1);
        let q = bare(f, terms::place_of(n, walk::file::entry_of(y, 0)));
        if let Head::Struct {
            number: inside,
            count,
            regions,
        } = terms::head_of(f, q)
            && inside < number
        {
            return innermost(f, n, inside, substituted(regions, count, &to));
        }
    }
    Inner {
        number,
        regions: joined(to),
    }
}

// The core of the term at place p.
fn core_of(f: &[u8], n: usize, p: usize) -> Core
    requires { (p ≤ n) × (Terms f.now n) × ((q : ℕ) → q ≤ n → Few (head_of f.now q)) }
    ensures { CoreIs f.now p result }
{
    let c = bare(f, p);
    match terms::head_of(f, c) {
        Head::Struct {
            number,
            count,
            regions,
        } => {
            let x = innermost(f, n, number, own_arguments(regions, count));
            Core::Fields {
                number: x.number,
                regions: x.regions,
            }
        }
        _ => Core::Term(c),
    }
}

// ---- the table of a file

// The table of a file with n terms and k structs, whose records are in range.
pub fn extents(f: &[u8], n: usize, k: usize) -> [u64; MOST_TERMS]
    requires { (Counted f.now n k) × (Ranged f.now n) }
    ensures { Table f.now n k result }
{
    let mut tab = [0u64; MOST_TERMS];
    for t in 0..n {
        let e = terms::term_extent(f, n, k, t + 1);
        let c = core_of(f, n, t + 1);
        tab[t] = entry(e, c);
    }
    tab
}

// Size and number of primitives of term t.
pub fn extent_at(n: usize, t: usize, tab: &[u64], f: &[u8], k: usize) -> Extent
    requires { Table f.now n k tab.now }
    ensures { let m = module_of f.now in (result ≡ exact_of (flat m (m.term t))) × (Small result) }
{
    extent_in(tab, terms::place_of(n, t))
}

// ---- the primitive at a position: two functions in a cycle, as for sizes

// Primitive i of the term at place p, which lies off bytes into something of at most 256.
#[cycle(struct_prim_term_prim)]
fn term_prim(
    f: &[u8],
    n: usize,
    k: usize,
    p: usize,
    to: [u8; 8],
    off: usize,
    i: usize,
    tab: &[u64],
) -> Primitive
    requires { let L = term_layout f.now k p in (p ≤ n) × (off + L.size ≤ size_limit) × (i < count L) × (Keeps to) × (Known f.now n k tab.now) × (i < size_limit) }
    ensures { (Found f.now result to off (nth (term_layout f.now k p) i)) × (result.place ≤ n) × (result.off ≤ size_limit) }
{
    match core_in(tab, p) {
        Core::Fields { number, regions } => {
            struct_prim(f, n, number, arguments(regions, &to), off, i, tab)
        }
        Core::Term(c) => match terms::head_of(f, c) {
            Head::Arr { inner, .. } => {
                let e = extent_in(tab, inner);
                if e.count == 0 {
                    return Primitive { off, place: c, to };
                }
                term_prim(
                    f,
                    n,
                    k,
                    inner,
                    to,
                    off + i / e.count * e.size,
                    i % e.count,
                    tab,
                )
            }
            _ => Primitive { off, place: c, to },
        },
    }
}

// Primitive i of a struct: of the field in which it falls.
#[cycle(struct_prim_term_prim)]
fn struct_prim(
    f: &[u8],
    n: usize,
    number: usize,
    to: [u8; 8],
    off: usize,
    i: usize,
    tab: &[u64],
) -> Primitive
    requires { let L = struct_layout f.now number in (number < 256) × (off + L.size ≤ size_limit) × (i < count L) × (Keeps to) × (Known f.now n number tab.now) × (i < size_limit) }
    ensures { (Found f.now result to off (nth (struct_layout f.now number) i)) × (result.place ≤ n) × (result.off ≤ size_limit) }
{
    let first = n + 2 * number;
    let x = walk::file::record_at(f, first);
    let y = walk::file::record_at(f, first + 1);
    let mut size = 0;
    let mut count = 0;
    for j in 0..x.b {
        let p = terms::place_of(n, walk::file::entry_of(y, usize::from(j)));
        let e = extent_in(tab, p);
        if i < count + e.count {
            return term_prim(f, n, number, p, to, off + size, i - count, tab);
        }
        size += e.size;
        count += e.count;
    }
    Primitive { off, place: 0, to }
}

// Primitive i of the term at place p.
pub fn place_prim(
    f: &[u8],
    n: usize,
    k: usize,
    p: usize,
    to: [u8; 8],
    i: usize,
    tab: &[u64],
) -> Primitive
    requires { (Table f.now n k tab.now) × (p ≤ n) × (i < count (term_layout f.now k p)) × (Keeps to) }
    ensures { (Found f.now result to 0 (nth (term_layout f.now k p) i)) × (result.place ≤ n) × (result.off ≤ size_limit) }
{
    term_prim(f, n, k, p, to, 0, i, tab)
}

// ---- positions by distance

// The distance of primitive i of the term at place p: the same under every substitution.
fn place_off(f: &[u8], n: usize, k: usize, p: usize, i: usize, tab: &[u64]) -> usize
    requires { (Table f.now n k tab.now) × (p ≤ n) × (i < count (term_layout f.now k p)) }
    ensures { result ≡ distance (term_layout f.now k p) i }
{
    place_prim(f, n, k, p, [255; 8], i, tab).off
}

// The first position of the term at place p, of `many` primitives, whose distance is o or more. By halves, as distances grow (they stand
// in no slice that `partition_point` could go over: each is found by a descent).
fn lower(f: &[u8], n: usize, k: usize, p: usize, o: usize, many: usize, tab: &[u64]) -> usize
    requires { (Table f.now n k tab.now) × (p ≤ n) × (many ≡ count (term_layout f.now k p)) }
    ensures { Lower (term_layout f.now k p) o result result }
{
    let mut low = 0;
    let mut high = many;
    while low < high {
        let mid = low + (high - low) / 2;
        if place_off(f, n, k, p, mid, tab) < o {
            low = mid + 1;
        } else {
            high = mid;
        }
    }
    low
}

// The position of term t whose distance is o: the number of its primitives where there is none.
pub fn position_at(f: &[u8], n: usize, k: usize, t: usize, o: usize, tab: &[u64]) -> usize
    requires { Table f.now n k tab.now }
    ensures { let m = module_of f.now in result ≡ position_at (flat m (m.term t)) o }
{
    let p = terms::place_of(n, t);
    let many = extent_in(tab, p).count;
    let i = lower(f, n, k, p, o, many, tab);
    if i < many && place_off(f, n, k, p, i, tab) == o {
        i
    } else {
        many
    }
}

// Kind 23: the distance of position d of term t, 0 where there is none.
pub fn distance(f: &[u8], n: usize, k: usize, t: usize, d: usize, tab: &[u64]) -> usize
    requires { Table f.now n k tab.now }
    ensures { let m = module_of f.now in result ≡ distance (flat m (m.term t)) d }
{
    let p = terms::place_of(n, t);
    if d < extent_in(tab, p).count {
        place_off(f, n, k, p, d, tab)
    } else {
        0
    }
}

// Kind 24: the size of an element and their number, of an array.
pub fn element(f: &[u8], n: usize, k: usize, t: usize, tab: &[u64]) -> Extent
    requires { Table f.now n k tab.now }
    ensures { ElementIs f.now t result }
{
    let a = terms::inner(f, n, t);
    let e = extent_at(n, a, tab, f, k);
    Extent {
        size: e.size,
        count: terms::number(f, n, t),
    }
}
