// The reader of states: the object around an address.
ghost use Rattle.std.specs.Prelude.{◌≡◌, ◌<◌, IfSome};
ghost use Rattle.rules.specs.Verdict.{verdict_of, IsAccepted};
ghost use Rattle.rules.specs.Host.{object_of, object_at};
ghost use Rattle.host.specs.Reading.{part_meant, IsPartOf};

use crate::tables::{passes, tables_of};
use rules::PageRange;
use state::range::all_pages;

// A part of the lent state that is an object: where it starts, and its size.
#[derive(Clone, Copy)]
pub struct Part {
    pub offset: usize,
    pub size: usize,
}

// Of an accepted module: none where the state is refused.
fn object_accepted(range: PageRange, file: &[u8], s: &[u8], address: u32) -> Option<Part>
    requires { IsAccepted (verdict_of file.now) }
    ensures answer { part_meant result ≡ object_at range file.now s.now address }
    ensures some { IfSome result (λ part. 0 < part.size) }
{
    let t = tables_of(file);
    if !passes(range, file, t, s) {
        return None;
    }
    let starts = t.starts;
    let extents = t.extents;
    let a = objects::object(
        file,
        &starts,
        t.functions,
        t.terms,
        t.structs,
        &extents,
        s,
        address,
    );
    if a.size == 0 {
        return None;
    }
    Some(Part {
        offset: a.offset,
        size: a.size,
    })
}

// The whole object around the address, used or free, if there is one, of the machine with this range.
pub fn object_at(range: PageRange, file: &[u8], s: &[u8], address: u32) -> Option<Part>
    ensures answer { part_meant result ≡ object_at range file.now s.now address }
    ensures some { IfSome result (λ part. 0 < part.size) }
{
    match checker::verdict(file) {
        Ok(_) => object_accepted(range, file, s, address),
        Err(_) => None,
    }
}

// The same, of document 01's machine.
pub fn object(file: &[u8], s: &[u8], address: u32) -> Option<Part>
    ensures answer { part_meant result ≡ object_of file.now s.now address }
    ensures some { IfSome result (λ part. 0 < part.size) }
{
    object_at(all_pages(), file, s, address)
}

// That part of the lent state itself, in place; where there is none the empty part, where the state starts.
pub fn inspect<'a>(file: &[u8], s: &'a [u8], address: u32) -> &'a [u8]
    ensures { IsPartOf result s.entry (object_of file.now s.now address) }
{
    match object(file, s, address) {
        Some(part) => &s[part.offset..part.offset + part.size],
        None => &s[0..0],
    }
}
