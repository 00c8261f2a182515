// Kinds 29 to 34.
ghost use Rattle.std.specs.Prelude.{◌≡◌, ◌<◌, ◌^◌, ltb};
ghost use Rattle.words.specs.Decide.{does};
ghost use Rattle.rules.specs.File.{record_of};
ghost use Rattle.rules.specs.Module.{input, output, jump, branch, return};
ghost use Rattle.rules.specs.Decision.{dec_typed};
ghost use Rattle.rules.specs.Decode.{module_of, control_of};
ghost use Rattle.functions.specs.Functions.{Known, function_at};
ghost use Rattle.judgment.specs.Kinds.{call_at};
ghost use Rattle.judgment.specs.Function.{keeps_rule};

use crate::function::Function;
use rules::kind::Kind;
use rules::limits::CALLEES;

// d is an instruction of the function with record 7 at h.
fn is_target(f: &[u8], h: usize, d: u32) -> bool
    ensures { result ≡ ltb d (function_at f.now h).code_length }
{
    let x = walk::file::record_at(f, h);
    (d as usize) < walk::file::instructions_of(x)
}

// 31: to d. It asks for no register, so that nothing need be known of the function.
pub fn jump(f: &[u8], h: usize, d: u32) -> bool
    ensures { result ≡ does (dec_typed (module_of f.now) (function_at f.now h) (jump d)) }
{
    is_target(f, h, d)
}

impl Function<'_> {
    // 29: byte c of the form into i8 a.
    pub fn input(&self, a: usize, c: usize) -> bool
        ensures { result ≡ keeps_rule self.now (input a c) }
    {
        self.has_width(4, c) & self.has_width(1, a)
    }

    // 30: i8 b to the output.
    pub fn output(&self, b: usize) -> bool
        ensures { result ≡ keeps_rule self.now (output b) }
    {
        self.has_width(1, b)
    }

    // 31: to d.
    pub fn jump(&self, d: u32) -> bool
        ensures { result ≡ keeps_rule self.now (jump d) }
    {
        jump(self.file, self.head, d)
    }

    // 32: to d if integer a is not zero.
    pub fn branch(&self, a: usize, d: u32) -> bool
        ensures { result ≡ keeps_rule self.now (branch a d) }
    {
        self.is_integer(a) & is_target(self.file, self.head, d)
    }

    // 34: a is returned.
    pub fn returned(&self, a: usize) -> bool
        ensures { result ≡ keeps_rule self.now (return a) }
    {
        let x = walk::file::record_at(self.file, self.head);
        let u = walk::file::return_of(x);
        let e = self.entry(a);
        (e.form != 0) & equality::equal(self.file, self.terms, usize::from(e.term), u)
    }

    // The instruction at record r, with this record, keeps the rule of its kind. The file has k structs, and c functions that start at
    // `starts`.
    pub fn control(&self, k: usize, c: usize, starts: &[usize; CALLEES], r: usize) -> bool
        requires known { Known self.now.file.now self.now.terms k c starts.now }
        requires near { r < 2 ^ 32 }
        ensures { result ≡ keeps_rule self.now (control_of (record_of self.now.file.now r) (call_at self.now.file.now r)) }
    {
        let x = walk::file::record_at(self.file, r);
        let a = usize::from(x.a);
        match Kind::of(x.kind).unwrap_or(Kind::Return) {
            Kind::Input => self.input(a, usize::from(x.c)),
            Kind::Output => self.output(usize::from(x.b)),
            Kind::Jump => self.jump(x.d),
            Kind::Branch => self.branch(a, x.d),
            Kind::Call => self.call(k, c, starts, r),
            _ => self.returned(a),
        }
    }
}
