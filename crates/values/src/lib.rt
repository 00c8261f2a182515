// The clauses of the state test that need types, on bytes that nobody has tested: each primitive in each owned page is a value of its
// type (module pages), as each register is (crate registers); and the whole test. The file's tables are handed over; nothing is asked
// of the state.
#![tactic(auto)]

ghost use Rattle.std.specs.Prelude.{◌≡◌};
ghost use Rattle.words.specs.Decide.{does};
ghost use Rattle.rules.specs.Decode.{module_of};
ghost use Rattle.rules.specs.StateTest.{dec_passes};
ghost use Rattle.positions.specs.Table.{Table};
ghost use Rattle.stack.specs.Facts.{Known};
ghost use Rattle.positions.specs.Maps.{Narrow};

pub mod memory;
pub mod pages;

use marks::ends_ok;
use objects::typed::TypedState;
use pages::primitives_ok;
use registers::mapped::MappedState;
use rules::limits::CALLEES;
use shape::shape_ok;
use stack::untested::UntestedState;

// "the state test": the cheap parts first, and none after one that fails.
pub fn passes<'a>(
    f: &'a [u8],
    starts: &'a [usize; CALLEES],
    functions: usize,
    terms: usize,
    structs: usize,
    tab: &'a [u64],
    s: &'a [u8],
) -> bool
    requires fact_1 { Known f.now starts.now functions }
    requires fact_2 { Table f.now terms structs tab.now }
    requires fact_3 { Narrow f.now }
    ensures { result ≡ does (dec_passes (module_of f.now) s.now) }
{
    let state = UntestedState {
        file: f,
        starts,
        functions,
        bytes: s,
        frames: u32::from(state::total::frames(s)),
    };
    let typed = TypedState {
        state,
        terms,
        structs,
        extents: tab,
    };
    let mapped = MappedState { typed };
    shape_ok(&state) && ends_ok(&typed) && mapped.registers_ok() && primitives_ok(&mapped)
}
