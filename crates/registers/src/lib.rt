// The state test's clause on registers, on bytes that nobody has tested: each register of each frame is a value of its type. Nothing is
// asked of the state.
#![tactic(auto)]

ghost use Rattle.std.specs.Prelude.{◌≡◌, ◌<◌, ◌^◌};
ghost use Rattle.rules.specs.Decode.{module_of};
ghost use Rattle.rules.specs.State.{frame_map};
ghost use Rattle.rules.specs.Heap.{close, Stands, InUntyped};
ghost use Rattle.stack.specs.Tells.{Tells};
ghost use Rattle.positions.specs.Maps.{map_list};
ghost use Rattle.registers.specs.Value.{typing_of};
ghost use Rattle.registers.specs.Registers.{ValueOk, RegisterOk, RegistersOk, AllRegisters, register_term};

pub mod mapped;

use mapped::MappedState;
use memo::stands_known;
use objects::home_of;
use rules::limits::{MOST_ENTRIES, SIZE_LIMIT};
use runs::in_untyped;
use stack::untested::UntestedState;
use state::{Machine, RegionVariable};
use terms::{Live, form, inner, number, target_region};

// Frame k's map.
pub fn map_of(s: &[u8], k: u32) -> [u8; 7]
    ensures { result ≡ map_list s.now k }
{
    std::array::from_fn(|i| state::total::region_of(s, k, RegionVariable(i as u32)).0)
}

// ---- values

// x is below 256 to the width.
fn fits(width: usize, x: u32) -> bool
    ensures { Tells result (x < 256 ^ width) }
{
    match width {
        0 => x < 1,
        1 => x < 256,
        2 => x < 65536,
        3 => x < 16777216,
        _ => true,
    }
}

impl MappedState<'_> {
    // The run of term t under frame k's map stands at address x, in live region r.
    fn stands_at(&self, k: u32, r: u8, t: usize, x: u32) -> bool
        ensures { let s = self.now.typed.state in Tells result (Stands (module_of s.file.now) (typing_of s.file.now s.bytes.now s.frames) (close (frame_map s.bytes.now k) ((module_of s.file.now).term t)) r x) }
    {
        let typed = &self.typed;
        let state = typed.state;
        let Some(home) = home_of(&state, state.frames, u32::from(r)) else {
            return false;
        };
        let p = map_of(state.bytes, home.frame);
        let q = map_of(state.bytes, k);
        let owner = state::total::owner(state.bytes, x / Machine::PAGE_BYTES);
        let e = typed.extent_of(home.entry);
        let mut memo = [None; SIZE_LIMIT];
        stands_known(
            state.file,
            typed.terms,
            typed.structs,
            Live(r),
            owner,
            home.entry,
            &p,
            e.size,
            x,
            t,
            &q,
            typed.extents,
            &mut memo,
        )
    }

    // `many` bytes from address x on lie in one page of live region r, which is untyped.
    fn untyped_at(&self, r: u8, many: usize, x: u32) -> bool
        requires { many < 2 ^ 32 }
        ensures { let s = self.now.typed.state in Tells result (InUntyped (typing_of s.file.now s.bytes.now s.frames) many r x) }
    {
        let state = self.typed.state;
        let Some(home) = home_of(&state, state.frames, u32::from(r)) else {
            return false;
        };
        let owner = state::total::owner(state.bytes, x / Machine::PAGE_BYTES);
        in_untyped(Live(r), owner, home.entry, x, many)
    }

    // x is a value of term t under frame k's map: of an integer, a pointer or an untyped pointer.
    fn value_ok(&self, k: u32, t: usize, x: u32) -> bool
        ensures { let s = self.now.typed.state in Tells result (ValueOk s.file.now s.bytes.now s.frames k t x) }
    {
        let f = self.typed.state.file;
        let terms = self.typed.terms;
        let kind = form(f, terms, t);
        if kind == 1 {
            return fits(number(f, terms, t), x);
        }
        if (kind != 2) & (kind != 11) {
            return false;
        }
        if x == 0 {
            return true;
        }
        let variable = target_region(f, terms, t);
        let live = state::total::region_of(
            self.typed.state.bytes,
            k,
            RegionVariable(u32::from(variable.0)),
        );
        if kind == 11 {
            self.untyped_at(live.0, number(f, terms, t), x)
        } else {
            self.stands_at(k, live.0, inner(f, terms, t), x)
        }
    }

    // Register a of frame k.
    fn register_ok(&self, k: u32, a: u32) -> bool
        requires { a < 256 }
        ensures { let s = self.now.typed.state in Tells result (RegisterOk s.file.now s.bytes.now s.frames k a) }
    {
        let t = register_term(&self.typed.state, k, a);
        let x = state::total::register(self.typed.state.bytes, k, a);
        self.value_ok(k, t, x)
    }

    fn frame_registers(&self, k: u32) -> bool
        ensures { let s = self.now.typed.state in Tells result (RegistersOk s.file.now s.bytes.now s.frames k) }
    {
        let h = self.typed.state.head(k);
        (0..u32::from(h.c)).all(|a| self.register_ok(k, a))
    }

    // "each register .. is a value of its type"
    pub fn registers_ok(&self) -> bool
        ensures { Tells result (AllRegisters self.now.typed.state.file.now self.now.typed.state.bytes.now) }
    {
        (0..self.typed.state.frames).all(|k| self.frame_registers(k))
    }
}

// ---- registers

// The term of register a of frame k's function.
fn register_term(state: &UntestedState, k: u32, a: u32) -> usize
    requires { a < 256 }
    ensures { result ≡ register_term state.now.file.now state.now.bytes.now k a }
{
    let g = usize::from(state::total::function(state.bytes, k));
    let h = walk::tables::start_of(state.file, state.starts, g);
    let at = walk::code::registers_at(state.file, h);
    let i = a as usize;
    let x = walk::file::record_at(state.file, at + i / MOST_ENTRIES);
    walk::file::entry_of(x, i % MOST_ENTRIES)
}
