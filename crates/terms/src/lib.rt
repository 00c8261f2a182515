// Type terms read from a module file: document 01, "The module file" and "Flat types". Each contract is an equation with the
// definitions of `rules`, for all bytes; a term number that names nothing reads as `no_tree`. A term's place is one more than its
// number, and place 0 is what is not there (a number, as `tree_at` counts places): so the places inside a term are lower, and a walk along
// a term ends.
#![tactic(auto)]

ghost use Rattle.std.specs.Prelude.{◌≡◌, max, suc, ◌+◌, ◌*◌, ◌<◌, ◌≤◌, length};
ghost use Rattle.rules.specs.Limits.{size_limit};
ghost use Rattle.rules.specs.Decode.{module_of};
ghost use Rattle.rules.specs.Flat.{flat, struct_flat};
ghost use Rattle.words.specs.Decide.{does};
ghost use Rattle.rules.specs.Types.{int, form, number_of, region_of, args, dec_tree, dec_uses, dec_primitive};
ghost use Rattle.terms.specs.Heads.{digit, args_of, place_of, head_from, head_of, form_no, main_no, inner_no, region_no, args_no, word_no};
ghost use Rattle.terms.specs.HeadLaws.{Fair, Narrow};
ghost use Rattle.terms.specs.Extents.{Terms, Counted, cap, extent_of, over, plus, times, Small, term_extent, struct_extent};
ghost use Rattle.terms.specs.Compare.{byte_under};
ghost use Rattle.terms.specs.Bounds.{bound, bound_of, head_bound};
ghost use Rattle.terms.specs.Readers.{Reads, Inner, form_by};

use rules::Record;
use rules::limits::SIZE_LIMIT;

// What a term's record says: inner terms by place, region arguments by how many, and the number that holds them.
#[derive(Clone, Copy)]
pub enum Head {
    // an integer of so many bytes
    Int(usize),
    // a pointer to the place inside, in a region
    Ptr {
        inner: usize,
        region: usize,
    },
    // so many of the place inside
    Arr {
        count: usize,
        inner: usize,
    },
    // a struct, for so many regions, a byte of `regions` each
    Struct {
        number: usize,
        count: usize,
        regions: usize,
    },
    // a pointer to so many untyped bytes, in a region
    Untyped {
        bytes: usize,
        region: usize,
    },
}

// The type of a region is an entry of record 8: a term, or this, of an untyped region.
pub const UNTYPED: usize = 255;

// The size of what has none: one more than an object may have, as the layouts of `rules` have it (`none`, Flat).
const NO_SIZE: usize = SIZE_LIMIT + 1;

// Size in bytes and number of primitives. The number is exact up to the limit, and one more above.
#[derive(Clone, Copy)]
pub struct Extent {
    pub size: usize,
    pub count: usize,
}

// A region variable as it is written in the code, and a live region of the machine. Only a region map, as it lies in the state,
// leads from one to the other.
#[derive(Clone, Copy)]
pub struct Variable(pub u8);

#[derive(Clone, Copy)]
pub struct Live(pub u8);

// ---- numbers

// Byte j of the number d, the lowest first; from 3 on the highest. (By `to_le_bytes` it would have to ask for the end of the eight.)
pub fn digit(d: usize, j: usize) -> usize
    ensures { result ≡ digit d j }
{
    match j {
        0 => d % 256,
        1 => d / 256 % 256,
        2 => d / 65536 % 256,
        _ => d / 16777216,
    }
}

// ---- heads

// The place of term t, where there are n.
pub fn place_of(n: usize, t: usize) -> usize
    ensures { (result ≡ place_of n t) × (result ≤ n) × (result ≤ t + 1) }
{
    if t < n { t + 1 } else { 0 }
}

// The head of the term t with record x.
fn head_from(t: usize, x: Record) -> Head
    ensures { result ≡ head_from t x }
{
    let a = usize::from(x.a);
    let b = usize::from(x.b);
    let d = x.d as usize;
    match x.kind {
        1 => Head::Int(a),
        2 => Head::Ptr {
            inner: place_of(t, a),
            region: b,
        },
        3 => Head::Arr {
            count: d,
            inner: place_of(t, a),
        },
        11 => Head::Untyped {
            bytes: d,
            region: a,
        },
        _ => Head::Struct {
            number: a,
            count: b,
            regions: d,
        },
    }
}

// The head at place p.
pub fn head_of(f: &[u8], p: usize) -> Head
    ensures { (result ≡ head_of f.now p) × (Fair p result) }
{
    if p == 0 {
        Head::Int(1)
    } else {
        head_from(p - 1, walk::file::record_at(f, p - 1))
    }
}

// A head by numbers: its form (as `form` of `rules` numbers them), what it writes itself, the place inside, its region, its arguments.
pub fn form_no(h: Head) -> usize
    ensures { result ≡ form_no h }
{
    match h {
        Head::Int(_) => 1,
        Head::Ptr { .. } => 2,
        Head::Arr { .. } => 3,
        Head::Struct { .. } => 4,
        Head::Untyped { .. } => 11,
    }
}

pub fn main_no(h: Head) -> usize
    ensures { result ≡ main_no h }
{
    match h {
        Head::Int(width) => width,
        Head::Ptr { .. } => 0,
        Head::Arr { count, .. } => count,
        Head::Struct { number, .. } => number,
        Head::Untyped { bytes, .. } => bytes,
    }
}

pub fn inner_no(h: Head) -> usize
    ensures { result ≡ inner_no h }
{
    match h {
        Head::Ptr { inner, .. } | Head::Arr { inner, .. } => inner,
        _ => 0,
    }
}

pub fn region_no(h: Head) -> usize
    ensures { result ≡ region_no h }
{
    match h {
        Head::Ptr { region, .. } | Head::Untyped { region, .. } => region,
        _ => 255,
    }
}

pub fn args_no(h: Head) -> usize
    ensures { result ≡ args_no h }
{
    match h {
        Head::Struct { count, .. } => count,
        _ => 0,
    }
}

pub fn word_no(h: Head) -> usize
    ensures { result ≡ word_no h }
{
    match h {
        Head::Struct { regions, .. } => regions,
        _ => 0,
    }
}

// ---- extents: size and number of primitives

const NO_EXTENT: Extent = Extent {
    size: NO_SIZE,
    count: 0,
};

fn cap(c: usize) -> usize
    ensures { (result ≡ cap c) × (result ≤ suc size_limit) }
{
    c.min(NO_SIZE)
}

// One after the other, and n times the same.
fn plus(d: Extent, e: Extent) -> Extent
    requires { (Small d) × (Small e) }
    ensures { (result ≡ plus d e) × (Small result) }
{
    let size = d.size + e.size;
    if size > SIZE_LIMIT {
        return NO_EXTENT;
    }
    Extent {
        size,
        count: cap(d.count + e.count),
    }
}

fn times(n: usize, e: Extent) -> Extent
    requires { (n < 4294967296) × (Small e) }
    ensures { (result ≡ times n e) × (Small result) }
{
    let size = n * e.size;
    if size > SIZE_LIMIT {
        return NO_EXTENT;
    }
    Extent {
        size,
        count: cap(n * e.count),
    }
}

// The extent of the term at place p, with the structs below k known. n is the number of terms, behind which the structs stand.
#[cycle(struct_extent_term_extent)]
pub fn term_extent(f: &[u8], n: usize, k: usize, p: usize) -> Extent
    requires { Terms f.now n }
    ensures { (result ≡ term_extent f.now k p) × (Small result) }
{
    match head_of(f, p) {
        Head::Int(size) => Extent { size, count: 1 },
        Head::Ptr { .. } | Head::Untyped { .. } => Extent { size: 4, count: 1 },
        Head::Arr { count, inner } => times(count, term_extent(f, n, k, inner)),
        Head::Struct { number, .. } if number < k => struct_extent(f, n, number),
        Head::Struct { .. } => NO_EXTENT,
    }
}

// The extent of a struct: its fields one after the other, until they pass the limit.
#[cycle(struct_extent_term_extent)]
pub fn struct_extent(f: &[u8], n: usize, number: usize) -> Extent
    requires { (Terms f.now n) × (number < 256) }
    ensures { (result ≡ struct_extent f.now number) × (Small result) }
{
    let first = n + 2 * number;
    let x = walk::file::record_at(f, first);
    let y = walk::file::record_at(f, first + 1);
    let mut sum = Extent { size: 0, count: 0 };
    for i in 0..usize::from(x.b) {
        let p = place_of(n, walk::file::entry_of(y, i));
        let e = term_extent(f, n, number, p);
        sum = plus(sum, e);
        if sum.size > SIZE_LIMIT {
            return NO_EXTENT;
        }
    }
    sum
}

// The extents of term t and of struct `number` of a file with n terms and k structs.
pub fn extent_of_term(f: &[u8], n: usize, k: usize, t: usize) -> Extent
    requires { Counted f.now n k }
    ensures { let m = module_of f.now in (result ≡ extent_of (flat m (m.term t))) × (Small result) }
{
    term_extent(f, n, k, place_of(n, t))
}

pub fn extent_of_struct(f: &[u8], n: usize, k: usize, number: usize) -> Extent
    requires { Counted f.now n k }
    ensures { (result ≡ extent_of (struct_flat (module_of f.now) number)) × (Small result) }
{
    if number < k {
        struct_extent(f, n, number)
    } else {
        NO_EXTENT
    }
}

// ---- a region map

// The live region that a region map has for a variable.
pub fn live_of(map: &[u8], v: Variable) -> Live
    ensures { result.0 ≡ byte_under map.now v.0 }
{
    Live(map.get(usize::from(v.0)).copied().unwrap_or(255))
}

// ---- regions used

// One more than the highest of the first n regions that d holds.
fn args_bound(d: usize, n: usize) -> usize
    requires { d < 4294967296 }
    ensures { result ≡ bound_of (args_of d n) }
{
    let mut best = 0;
    for i in 0..n {
        best = best.max(digit(d, i) + 1);
    }
    best
}

fn head_bound(h: Head) -> usize
    requires { Narrow h }
    ensures { result ≡ head_bound h }
{
    match h {
        Head::Ptr { region, .. } | Head::Untyped { region, .. } => region + 1,
        Head::Struct { count, regions, .. } => args_bound(regions, count),
        _ => 0,
    }
}

// One more than the highest region that term t uses, under pointers too: t uses only the regions below it.
pub fn bound(f: &[u8], n: usize, t: usize) -> usize
    requires { Terms f.now n }
    ensures { result ≡ bound ((module_of f.now).term t) }
{
    let mut best = 0;
    let mut i = place_of(n, t);
    // (a place that goes inward, not an index: a `while`)
    while i > 0 {
        let x = head_of(f, i);
        best = best.max(head_bound(x));
        i = inner_no(x);
    }
    best
}

// Whether term t uses only the regions below `most`.
pub fn uses(f: &[u8], n: usize, t: usize, most: usize) -> bool
    requires { Terms f.now n }
    ensures { result ≡ does (dec_uses most ((module_of f.now).term t)) }
{
    bound(f, n, t) <= most
}

// ---- what a term is

// The head of term t.
pub fn head_term(f: &[u8], n: usize, t: usize) -> Head
    requires { Terms f.now n }
    ensures { Reads f.now n ((module_of f.now).term t) result }
{
    head_of(f, place_of(n, t))
}

// The form of a term whose record has this kind: 1 integer, 2 pointer, 3 array, 4 struct, 11 untyped pointer (the numbers of `form` in `rules`).
fn form_by(kind: u8) -> usize
    ensures { result ≡ form_by kind }
{
    match kind {
        1 | 2 | 3 | 11 => usize::from(kind),
        _ => 4,
    }
}

// The form of term t.
pub fn form(f: &[u8], n: usize, t: usize) -> usize
    requires { Terms f.now n }
    ensures { result ≡ form ((module_of f.now).term t) }
{
    if t < n {
        form_by(walk::file::byte_at(f, t, 0))
    } else {
        1
    }
}

// Its width, the region of a pointer, the count of an array, the number of a struct, the bytes of an untyped pointer.
pub fn number(f: &[u8], n: usize, t: usize) -> usize
    requires { Terms f.now n }
    ensures { result ≡ number_of ((module_of f.now).term t) }
{
    let x = head_term(f, n, t);
    if form_no(x) == 2 {
        region_no(x)
    } else {
        main_no(x)
    }
}

// Whether it is a primitive.
pub fn primitive(f: &[u8], n: usize, t: usize) -> bool
    requires { Terms f.now n }
    ensures { result ≡ does (dec_primitive ((module_of f.now).term t)) }
{
    let form = form(f, n, t);
    (form <= 2) | (form == 11)
}

// Whether it is the integer of so many bytes.
pub fn is_integer(f: &[u8], n: usize, t: usize, width: usize) -> bool
    requires { Terms f.now n }
    ensures { result ≡ does (dec_tree ((module_of f.now).term t) (int width)) }
{
    if t < n {
        let kind = walk::file::byte_at(f, t, 0);
        let a = walk::file::byte_at(f, t, 1);
        (kind == 1) & (usize::from(a) == width)
    } else {
        1 == width
    }
}

// The term inside a pointer or an array, by number: n, which names nothing, where what is inside is not there.
pub fn inner(f: &[u8], n: usize, t: usize) -> usize
    requires { Terms f.now n }
    ensures { Inner f.now ((module_of f.now).term t) result }
{
    let p = inner_no(head_term(f, n, t));
    if p > 0 { p - 1 } else { n }
}

// The region that a pointer points into; nowhere of what is no pointer.
pub fn target_region(f: &[u8], n: usize, t: usize) -> Variable
    requires { Terms f.now n }
    ensures { result.0 ≡ (region_of ((module_of f.now).term t)).number }
{
    Variable(region_no(head_term(f, n, t)) as u8)
}

// The number of region arguments of a struct term.
pub fn arguments(f: &[u8], n: usize, t: usize) -> usize
    requires { Terms f.now n }
    ensures { result ≡ length (args ((module_of f.now).term t)) }
{
    args_no(head_term(f, n, t))
}
