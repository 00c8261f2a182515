// Type terms compared under substitutions: whether the types that two terms mean are equal, once regions are put in for their variables.
// Each contract is an equation with the definitions of `rules`, for all bytes. A substitution is a list of bytes, that of variable 0 first.
#![tactic(auto)]

ghost use Rattle.std.specs.Prelude.{◌≡◌};
ghost use Rattle.words.specs.Decide.{does};
ghost use Rattle.rules.specs.Decode.{module_of};
ghost use Rattle.rules.specs.Types.{variable, live, sub, dec_tree};
ghost use Rattle.terms.specs.Extents.{Terms};
ghost use Rattle.terms.specs.Readers.{entry_type};
ghost use Rattle.terms.specs.Compare.{byte_under, under};
ghost use Rattle.equality.specs.Equal.{args_same, heads_same, places_same, Identity};

use std::array;
use terms::{
    Head, UNTYPED, args_no, digit, form_no, head_of, inner_no, main_no, place_of, region_no,
    word_no,
};

// The region that stands for variable v: 255, nowhere, where the substitution has none.
fn region(to: &[u8], v: usize) -> usize
    ensures { result ≡ byte_under to.now v }
{
    to.get(v).map_or(255, |r| usize::from(*r))
}

// Whether the first n regions that d and e hold are the same, under p and under q.
fn same_args(p: &[u8], d: usize, q: &[u8], e: usize, n: usize) -> bool
    ensures { result ≡ args_same p.now d q.now e n }
{
    (0..n).all(|i| region(p, digit(d, i)) == region(q, digit(e, i)))
}

// Whether two heads are the same, but for what is inside.
fn same_head(p: &[u8], x: Head, q: &[u8], y: Head) -> bool
    ensures { result ≡ heads_same p.now x q.now y }
{
    let form = form_no(x);
    let count = args_no(x);
    ((form == form_no(y)) & (main_no(x) == main_no(y)))
        & ((!((form == 2) | (form == 11)) | (region(p, region_no(x)) == region(q, region_no(y))))
            & ((count == args_no(y)) & same_args(p, word_no(x), q, word_no(y), count)))
}

// Whether the terms at places a and b are equal, under p and under q: both chains are walked until nothing is inside.
pub fn same_places(f: &[u8], a: usize, p: &[u8], b: usize, q: &[u8]) -> bool
    ensures { (result ≡ places_same variable f.now a p.now b q.now) × (result ≡ places_same live f.now a p.now b q.now) }
{
    let mut i = a;
    let mut j = b;
    // (two places that go inward, not an index: a `while`)
    while (i > 0) | (j > 0) {
        let x = head_of(f, i);
        let y = head_of(f, j);
        if !same_head(p, x, q, y) {
            return false;
        }
        i = inner_no(x);
        j = inner_no(y);
    }
    true
}

// Whether terms a and b are equal, under p and under q.
pub fn same(f: &[u8], n: usize, a: usize, p: &[u8], b: usize, q: &[u8]) -> bool
    requires { Terms f.now n }
    ensures { let m = module_of f.now in (result ≡ does (dec_tree (sub (under {k = variable} p.now) (m.term a)) (sub (under q.now) (m.term b)))) × (result ≡ does (dec_tree (sub (under {k = live} p.now) (m.term a)) (sub (under q.now) (m.term b)))) }
{
    same_places(f, place_of(n, a), p, place_of(n, b), q)
}

// The substitution that puts each region for itself.
fn identity() -> [u8; 256]
    ensures { Identity result }
{
    array::from_fn(|r| r as u8)
}

// Whether terms a and b are equal as they are written.
pub fn equal(f: &[u8], n: usize, a: usize, b: usize) -> bool
    requires { Terms f.now n }
    ensures { let m = module_of f.now in result ≡ does (dec_tree (m.term a) (m.term b)) }
{
    // most terms that are compared are one and the same
    if a == b {
        return true;
    }
    let id = identity();
    same(f, n, a, &id, b, &id)
}

// Whether term a, as it is written, is term b with the regions q put in: the types of a call.
pub fn equal_under(f: &[u8], n: usize, a: usize, b: usize, q: &[u8]) -> bool
    requires { Terms f.now n }
    ensures { let m = module_of f.now in result ≡ does (dec_tree (m.term a) (sub (under q.now) (m.term b))) }
{
    let id = identity();
    same(f, n, a, &id, b, q)
}

// Whether the type of a region, entry a of record 8, is entry b with the regions q put in: the region types of a call.
pub fn types_equal(f: &[u8], n: usize, a: usize, b: usize, q: &[u8]) -> bool
    requires { Terms f.now n }
    ensures { result ≡ does (dec_tree (entry_type f.now a) (sub (under q.now) (entry_type f.now b))) }
{
    if (a == UNTYPED) | (b == UNTYPED) {
        return a == b;
    }
    equal_under(f, n, a, b, q)
}
