// The terms that a function's records name, and the records of its instructions, by the place h of its record 7.
ghost use Rattle.std.specs.Prelude.{◌≡◌, ◌<◌};
ghost use Rattle.functions.specs.Functions.{place_limit, register_term, region_term, place_in};

use rules::limits::MOST_ENTRIES;

// The term of register i.
pub fn register_term(f: &[u8], h: usize, i: usize) -> usize
    requires { h < place_limit }
    ensures { result ≡ register_term f.now h i }
{
    let from = walk::code::registers_at(f, h);
    usize::from(walk::file::byte_at(f, from + i / MOST_ENTRIES, i % MOST_ENTRIES + 1))
}

// The entry of region i in record 8: a term, or 255.
pub fn region_term(f: &[u8], h: usize, i: usize) -> usize
    requires { h < place_limit }
    ensures { result ≡ region_term f.now h i }
{
    let x = walk::file::record_at(f, h + 1);
    walk::file::entry_of(x, i)
}

// The record of instruction i: the instructions before it are passed, a 33 with its 35. 0 where there is none.
pub fn place_in(f: &[u8], h: usize, i: usize) -> usize
    requires { h < place_limit }
    ensures { result ≡ place_in f.now h i }
{
    let x = walk::file::record_at(f, h);
    let count = walk::file::instructions_of(x);
    if i >= count {
        return 0;
    }
    let mut r = walk::code::code_at(f, h);
    for _ in 0..i {
        r = walk::code::after(f, r);
    }
    r
}
