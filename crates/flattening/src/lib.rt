// Terms written out: every primitive of a term, found in one walk over it, so that a long run is compared without a descent for each.
#![tactic(auto)]

ghost use Rattle.std.specs.Prelude.{◌≡◌, true, ◌+◌, ◌*◌, ◌<◌, ◌≤◌};
ghost use Rattle.rules.specs.Limits.{most_structs, size_limit};
ghost use Rattle.rules.specs.Flat.{count, copies_of};
ghost use Rattle.positions.specs.Table.{Known, term_layout, struct_layout};
ghost use Rattle.positions.specs.Positions.{Keeps, Agree};
ghost use Rattle.flattening.specs.Written.{Room, Near, Written, Kept, Shifted, Past};

use positions::{Core, Primitive};
use rules::limits::{MOST_STRUCTS, SIZE_LIMIT};
use terms::Head;

// Where a struct was written last: its first entry, and the distance and the substitution with which it was written.
#[derive(Clone, Copy)]
pub struct Seen {
    pub start: usize,
    pub off: usize,
    pub to: [u8; 8],
}

// ---- entries: as many as a term can have primitives

// The `many` entries from `from` on once more, from `at` on, each `by` bytes further.
fn shifted(entries: &mut [Primitive; SIZE_LIMIT], from: usize, many: usize, at: usize, by: usize)
    requires { (from + many ≤ at) × (at + many ≤ size_limit) × (Room entries.old) × (Near entries.old from many by) }
    ensures { Shifted entries.old entries.new from many at by }
{
    for i in 0..many {
        let x = entries[from + i];
        entries[at + i] = Primitive {
            off: x.off + by,
            ..x
        };
    }
}

// Whether both substitutions put the same for each variable.
pub fn agree(x: [u8; 8], y: [u8; 8]) -> bool
    ensures { result ≡ true → Agree x y }
{
    x == y
}

// ---- writing out: functions in a cycle, as those of positions

// The primitives of the term at place p, which lies off bytes into something of at most 256, from entry `at` on.
#[cycle(copies_written_struct_written_term_written)]
pub fn term_written(
    f: &[u8],
    n: usize,
    k: usize,
    p: usize,
    to: [u8; 8],
    off: usize,
    entries: &mut [Primitive; SIZE_LIMIT],
    seen: &mut [Option<Seen>; MOST_STRUCTS],
    at: usize,
    tab: &[u64],
)
    requires { let L = term_layout f.now k p in (p ≤ n) × (off + L.size ≤ size_limit) × (at + count L ≤ size_limit) × (Keeps to) × (Known f.now n k tab.now) × (Room entries.old) × (k ≤ most_structs) × (Past f.now entries.old seen.old at off) }
    ensures { (Written f.now entries.new at to off (term_layout f.now k p)) × (Kept entries.old entries.new at) × (Past f.now entries.new seen.new (at + count (term_layout f.now k p)) (off + (term_layout f.now k p).size)) }
{
    let all = positions::extent_in(tab, p).count;
    if all == 0 {
        return;
    }
    match positions::core_in(tab, p) {
        Core::Fields { number, regions } => {
            let inside = positions::arguments(regions, &to);
            struct_written(f, n, number, inside, off, all, entries, seen, at, tab);
        }
        Core::Term(c) => match terms::head_of(f, c) {
            Head::Arr { count, inner } => {
                copies_written(f, n, k, inner, to, off, count, entries, seen, at, tab);
            }
            // an integer has no regions: under one substitution always, it is found alike without reading the file (same_prim, runs)
            Head::Int(_) => {
                entries[at] = Primitive {
                    off,
                    place: c,
                    to: [0; 8],
                }
            }
            _ => entries[at] = Primitive { off, place: c, to },
        },
    }
}

// The primitives of `many` copies of the term at place a: the first is written, and the others are it, shifted.
#[cycle(copies_written_struct_written_term_written)]
fn copies_written(
    f: &[u8],
    n: usize,
    k: usize,
    a: usize,
    to: [u8; 8],
    off: usize,
    many: usize,
    entries: &mut [Primitive; SIZE_LIMIT],
    seen: &mut [Option<Seen>; MOST_STRUCTS],
    at: usize,
    tab: &[u64],
)
    requires { let L = term_layout f.now k a in (a ≤ n) × (off + many * L.size ≤ size_limit) × (at + many * count L ≤ size_limit) × (Keeps to) × (Known f.now n k tab.now) × (Room entries.old) × (k ≤ most_structs) × (Past f.now entries.old seen.old at off) }
    ensures { (Written f.now entries.new at to off (copies_of many (term_layout f.now k a))) × (Kept entries.old entries.new at) × (Past f.now entries.new seen.new (at + many * count (term_layout f.now k a)) (off + many * (term_layout f.now k a).size)) }
{
    if many == 0 {
        return;
    }
    term_written(f, n, k, a, to, off, entries, seen, at, tab);
    let e = positions::extent_in(tab, a);
    for h in 1..many {
        shifted(entries, at, e.count, at + h * e.count, h * e.size);
    }
}

// The `many` primitives of a struct: those that were written before under the same substitution, shifted, or field by field.
#[cycle(copies_written_struct_written_term_written)]
fn struct_written(
    f: &[u8],
    n: usize,
    number: usize,
    to: [u8; 8],
    off: usize,
    many: usize,
    entries: &mut [Primitive; SIZE_LIMIT],
    seen: &mut [Option<Seen>; MOST_STRUCTS],
    at: usize,
    tab: &[u64],
)
    requires { let L = struct_layout f.now number in (number < most_structs) × (off + L.size ≤ size_limit) × (at + count L ≤ size_limit) × (Keeps to) × (Known f.now n number tab.now) × (Room entries.old) × (Past f.now entries.old seen.old at off) × (many ≡ count L) × (0 < many) }
    ensures { (Written f.now entries.new at to off (struct_layout f.now number)) × (Kept entries.old entries.new at) × (Past f.now entries.new seen.new (at + count (struct_layout f.now number)) (off + (struct_layout f.now number).size)) }
{
    if let Some(last) = seen[number]
        && agree(last.to, to)
    {
        shifted(entries, last.start, many, at, off - last.off);
        return;
    }
    let first = n + 2 * number;
    let x = walk::file::record_at(f, first);
    let y = walk::file::record_at(f, first + 1);
    let mut size = 0;
    let mut count = 0;
    for j in 0..x.b {
        let p = terms::place_of(n, walk::file::entry_of(y, usize::from(j)));
        term_written(
            f,
            n,
            number,
            p,
            to,
            off + size,
            entries,
            seen,
            at + count,
            tab,
        );
        let e = positions::extent_in(tab, p);
        size += e.size;
        count += e.count;
    }
    seen[number] = Some(Seen { start: at, off, to });
}
