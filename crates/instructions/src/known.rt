// Runs of primitives that were found to stand: those that kinds 23, 27 and 28 ask for are the same few over and over. A run is remembered
// by a number that has both terms and the position; whoever asks for one that is not remembered has it compared.
ghost use Rattle.std.specs.Prelude.{◌≡◌, ◌<◌};
ghost use Rattle.words.specs.Bytes.{Bytes};
ghost use Rattle.positions.specs.Table.{Table};
ghost use Rattle.instructions.specs.Plain.{themselves};
ghost use Rattle.instructions.specs.Known.{run_key, run_stands, Remembered};
ghost use Rattle.instructions.specs.Same.{same_prims};

use crate::code::Code;

// The runs that are remembered, at most one in each place: a prime, so that those of neighbouring terms and positions fall on different
// places.
pub const RUNS: usize = 239;

// Nothing is remembered: no run has the number 0.
pub fn no_runs() -> [usize; RUNS]
    ensures { (f : Bytes) → Remembered f result }
{
    [0usize; RUNS]
}

fn run_key(s: usize, d: u32, t: usize) -> usize
    requires { (s < 256) × (t < 256) }
    ensures { result ≡ run_key s d t }
{
    1 + (t + 256 * (s + 256 * (d as usize)))
}

// Each region of a function stands for itself.
fn themselves() -> [u8; 8]
    ensures { result ≡ themselves }
{
    [0, 1, 2, 3, 4, 5, 6, 7]
}

// Whether the run of term t stands at position d of term s, as they are written.
pub fn run_known(
    f: &[u8],
    n: usize,
    k: usize,
    tab: &[u64],
    known: &mut [usize; RUNS],
    s: usize,
    d: u32,
    t: usize,
) -> bool
    requires fact_1 { Table f.now n k tab.now }
    requires fact_2 { (s < 256) × (t < 256) }
    requires fact_3 { Remembered f.now known.old }
    ensures { (result ≡ run_stands f.now s d t) × (Remembered f.now known.new) }
{
    let key = run_key(s, d, t);
    let i = key % RUNS;
    if known[i] == key {
        return true;
    }
    let same = themselves();
    let stands = runs::run_from(f, n, k, s, &same, d as usize, t, &same, tab);
    if stands {
        known[i] = key;
    }
    stands
}

// Whether terms u and t have the same primitives, as they are written: as many, and the run of t from the first on. Most that are compared
// are one term.
pub fn same_known(
    f: &[u8],
    n: usize,
    k: usize,
    tab: &[u64],
    known: &mut [usize; RUNS],
    u: usize,
    t: usize,
) -> bool
    requires fact_1 { Table f.now n k tab.now }
    requires fact_2 { (u < 256) × (t < 256) }
    requires fact_3 { Remembered f.now known.old }
    ensures { (result ≡ same_prims f.now u t) × (Remembered f.now known.new) }
{
    let count = positions::extent_in(tab, terms::place_of(n, u)).count;
    if u == t {
        return 0 < count;
    }
    let other = positions::extent_in(tab, terms::place_of(n, t)).count;
    if count != other {
        return false;
    }
    run_known(f, n, k, tab, known, u, 0, t)
}

impl Code<'_, '_> {
    // The same, in the code's file.
    pub fn run_known(&self, known: &mut [usize; RUNS], s: usize, d: u32, t: usize) -> bool
        requires bytes { (s < 256) × (t < 256) }
        requires remembered { Remembered self.now.function.file.now known.old }
        ensures stands { result ≡ run_stands self.now.function.file.now s d t }
        ensures remembered { Remembered self.now.function.file.now known.new }
    {
        let f = self.function;
        run_known(f.file, f.terms, self.structs, self.table, known, s, d, t)
    }

    // Whether terms u and t have the same primitives, in the code's file.
    pub fn same_known(&self, known: &mut [usize; RUNS], u: usize, t: usize) -> bool
        requires bytes { (u < 256) × (t < 256) }
        requires remembered { Remembered self.now.function.file.now known.old }
        ensures same { result ≡ same_prims self.now.function.file.now u t }
        ensures remembered { Remembered self.now.function.file.now known.new }
    {
        let f = self.function;
        same_known(f.file, f.terms, self.structs, self.table, known, u, t)
    }
}
