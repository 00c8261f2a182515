// The group of the kind picks the typing rule; and the scan of a function's instructions.
ghost use Rattle.std.specs.Prelude.{◌≡◌, ◌-◌, ◌<◌, ◌≤◌, ◌^◌};
ghost use Rattle.words.specs.First.{first};
ghost use Rattle.rules.specs.Decode.{module_of};
ghost use Rattle.rules.specs.Verdict.{instruction_test};
ghost use Rattle.positions.specs.Table.{Table};
ghost use Rattle.functions.specs.Functions.{place_limit, Known, function_at, instruction_in, place_in};
ghost use Rattle.judgment.specs.Function.{keeps_rule};
ghost use Rattle.instructions.specs.Plain.{Tight};
ghost use Rattle.instructions.specs.Known.{Remembered};

use crate::code::Code;
use crate::known::RUNS;
use judgment::function::Function;
use judgment::types::types_of;
use rules::Group;
use rules::limits::CALLEES;

impl Code<'_, '_> {
    // The instruction at record r keeps the rule of its kind. The file has c functions that start at `starts`.
    pub fn typed(
        &self,
        c: usize,
        starts: &[usize; CALLEES],
        known: &mut [usize; RUNS],
        r: usize,
    ) -> bool
        requires known_file { Known self.now.function.file.now self.now.function.terms self.now.structs c starts.now }
        requires near { r < 2 ^ 32 }
        requires remembered { Remembered self.now.function.file.now known.old }
        ensures rule { result ≡ keeps_rule self.now.function (instruction_in self.now.function.file.now r) }
        ensures remembered { Remembered self.now.function.file.now known.new }
    {
        let x = walk::file::record_at(self.function.file, r);
        match walk::kinds::group_of(x.kind) {
            Group::Arithmetic => self.function.arithmetic(x),
            Group::Memory => self.memory(known, x),
            Group::Control => self.function.control(self.structs, c, starts, r),
        }
    }
}

// An instruction of a function, and its record.
#[derive(Clone, Copy)]
pub struct Found {
    pub index: usize,
    pub place: usize,
}

// The first instruction that breaks its rule; or their number, and the record of the last, which refusal 8 asks for: both ways a place.
pub fn first_instruction(
    f: &[u8],
    n: usize,
    k: usize,
    c: usize,
    starts: &[usize; CALLEES],
    tab: &[u64],
    known: &mut [usize; RUNS],
    h: usize,
) -> Found
    requires fact_1 { Known f.now n k c starts.now }
    requires fact_2 { Table f.now n k tab.now }
    requires fact_3 { Tight (function_at f.now h) }
    requires fact_4 { h < place_limit }
    requires fact_5 { Remembered f.now known.old }
    ensures { let F = function_at f.now h in (result.index ≡ first F.code_length (instruction_test (module_of f.now) F)) × (result.index < F.code_length → result.place ≡ place_in f.now h result.index) × (F.code_length ≤ result.index → result.place ≡ place_in f.now h (F.code_length - 1)) × (Remembered f.now known.new) }
{
    let x = walk::file::record_at(f, h);
    let count = walk::file::instructions_of(x);
    let types = types_of(f, n, h);
    let code = Code {
        function: Function {
            file: f,
            terms: n,
            head: h,
            types: &types,
        },
        structs: k,
        table: tab,
    };
    let mut r = walk::code::code_at(f, h);
    let mut last = 0;
    for i in 0..count {
        if !code.typed(c, starts, known, r) {
            return Found { index: i, place: r };
        }
        last = r;
        r = walk::code::after(f, r);
    }
    Found {
        index: count,
        place: last,
    }
}
