// Where runs stand, remembered: pointers of one term lead into one region, so that only the distance into its objects tells them apart.
#![tactic(auto)]

ghost use Rattle.std.specs.Prelude.{◌<◌, ◌≤◌, length};
ghost use Rattle.rules.specs.Limits.{size_limit};
ghost use Rattle.positions.specs.Table.{Table};
ghost use Rattle.runs.specs.Runs.{RunAtIs, StandsIs};
ghost use Rattle.memo.specs.Memo.{Forgotten, Remembers, SizeIs};

use rules::limits::SIZE_LIMIT;
use state::Machine;
use terms::{Live, UNTYPED};

// Of each distance, whether a run stands there; none where nobody has asked yet.
pub type Memo = [Option<bool>; SIZE_LIMIT];

// Nothing is remembered any more.
pub fn forget(memo: &mut Memo)
    ensures { Forgotten memo.new }
{
    *memo = [None; SIZE_LIMIT];
}

// Whether the run of term t under q stands at byte o of the type u of a region under p, whose objects have this size: at the start of an
// object of that very type it does.
fn run_found(
    f: &[u8],
    n: usize,
    k: usize,
    u: usize,
    p: &[u8],
    size: usize,
    o: usize,
    t: usize,
    q: &[u8],
    tab: &[u64],
) -> bool
    requires { (Table f.now n k tab.now) × (length p.now ≤ 8) × (length q.now ≤ 8) × (SizeIs f.now u size) × (0 < size) × (size ≤ size_limit) }
    ensures { RunAtIs f.now u p.now o t q.now result }
{
    // (the mark of an untyped region names no term: it would be compared as i8)
    if o == 0
        && u != UNTYPED
        && equality::same_places(f, terms::place_of(n, u), p, terms::place_of(n, t), q)
    {
        return true;
    }
    runs::run_at(f, n, k, u, p, o, t, q, tab)
}

// The same, remembered.
fn run_known(
    f: &[u8],
    n: usize,
    k: usize,
    u: usize,
    p: &[u8],
    size: usize,
    o: usize,
    t: usize,
    q: &[u8],
    tab: &[u64],
    memo: &mut Memo,
) -> bool
    requires fact_1 { (Table f.now n k tab.now) × (length p.now ≤ 8) × (length q.now ≤ 8) × (SizeIs f.now u size) × (0 < size) × (size ≤ size_limit) × (o < size_limit) }
    requires fact_2 { Remembers f.now u p.now t q.now memo.old }
    ensures { (RunAtIs f.now u p.now o t q.now result) × (Remembers f.now u p.now t q.now memo.new) }
{
    if let Some(stands) = memo[o] {
        return stands;
    }
    let stands = run_found(f, n, k, u, p, size, o, t, q, tab);
    memo[o] = Some(stands);
    stands
}

// As runs' `stands`, where the objects of type u have this size.
pub fn stands_known(
    f: &[u8],
    n: usize,
    k: usize,
    r: Live,
    owner: u8,
    u: usize,
    p: &[u8],
    size: usize,
    a: u32,
    t: usize,
    q: &[u8],
    tab: &[u64],
    memo: &mut Memo,
) -> bool
    requires fact_1 { (Table f.now n k tab.now) × (length p.now ≤ 8) × (length q.now ≤ 8) × (SizeIs f.now u size) }
    requires fact_2 { Remembers f.now u p.now t q.now memo.old }
    ensures { (StandsIs f.now r.0 owner u p.now a t q.now result) × (Remembers f.now u p.now t q.now memo.new) }
{
    if a >= Machine::MEMORY_BYTES || usize::from(owner) != usize::from(r.0) + 1 || size == 0 {
        return false;
    }
    let x = (a % Machine::PAGE_BYTES) as usize;
    if x / size * size + size > Machine::PAGE_BYTES as usize {
        return false;
    }
    run_known(f, n, k, u, p, size, x % size, t, q, tab, memo)
}
