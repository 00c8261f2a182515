// What a call finds of an accepted file once: its counts, where its functions start, and its table of extents; and the state test by them.
ghost use Rattle.std.specs.Prelude.{◌≡◌, ◌&&◌};
ghost use Rattle.words.specs.Decide.{does};
ghost use Rattle.rules.specs.Decode.{module_of};
ghost use Rattle.rules.specs.StateTest.{dec_passes};
ghost use Rattle.rules.specs.Verdict.{verdict_of, IsAccepted};
ghost use Rattle.rules.specs.Host as rules;
ghost use Rattle.host.specs.Ready.{Ready};

use rules::PageRange;
use rules::limits::{CALLEES, MOST_TERMS};

#[derive(Clone, Copy)]
pub struct Tables {
    pub terms: usize,
    pub structs: usize,
    pub functions: usize,
    pub starts: [usize; CALLEES],
    pub extents: [u64; MOST_TERMS],
}

pub fn tables_of(file: &[u8]) -> Tables
    requires { IsAccepted (verdict_of file.now) }
    ensures { Ready file.now result }
{
    let t = walk::tables::tables_of(file);
    let w = t.walk;
    let starts = t.starts;
    let extents = positions::extents(file, w.terms, w.names);
    Tables {
        terms: w.terms,
        structs: w.names,
        functions: w.functions,
        starts,
        extents,
    }
}

// The state is one of a machine with this range.
fn ranged(range: PageRange, s: &[u8]) -> bool
    ensures { result ≡ rules.ranged range s.now }
{
    let own = state::total::range(s);
    (own.below == range.below) & (own.above == range.above)
}

// The state test, for any bytes s, of the machine with this range.
pub fn passes(range: PageRange, file: &[u8], t: Tables, s: &[u8]) -> bool
    requires { Ready file.now t }
    ensures { result ≡ does (dec_passes (module_of file.now) s.now) && rules.ranged range s.now }
{
    if ranged(range, s) {
        let starts = t.starts;
        let extents = t.extents;
        values::passes(file, &starts, t.functions, t.terms, t.structs, &extents, s)
    } else {
        false
    }
}
