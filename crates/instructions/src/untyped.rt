// Kinds 36 to 39: untyped memory.
ghost use Rattle.std.specs.Prelude.{◌≡◌};
ghost use Rattle.rules.specs.Module.{new_bytes, load_byte, store_byte, check_bytes};
ghost use Rattle.judgment.specs.Registers.{into_bytes};
ghost use Rattle.judgment.specs.Function.{in_file, keeps_rule};

use judgment::function::Function;
use terms::UNTYPED;

// a is an untyped pointer into an untyped region.
fn into_bytes(function: &Function, a: usize) -> bool
    ensures { result ≡ into_bytes (in_file function.now) a }
{
    let e = function.entry(a);
    let v = usize::from(e.region);
    let x = walk::file::record_at(function.file, function.head + 1);
    let u = walk::file::entry_of(x, v);
    (e.form == 11) & (function.in_scope(v) & (u == UNTYPED))
}

// 36: an object of bytes is made.
pub fn new_bytes(function: &Function, a: usize) -> bool
    ensures { result ≡ keeps_rule function.now (new_bytes a) }
{
    into_bytes(function, a)
}

// 37: i8 a is loaded through b at offset c.
pub fn load_byte(function: &Function, a: usize, b: usize, c: usize) -> bool
    ensures { result ≡ keeps_rule function.now (load_byte a b c) }
{
    into_bytes(function, b) & (function.has_width(4, c) & function.has_width(1, a))
}

// 38: i8 b is stored through a at offset c.
pub fn store_byte(function: &Function, a: usize, b: usize, c: usize) -> bool
    ensures { result ≡ keeps_rule function.now (store_byte a b c) }
{
    into_bytes(function, a) & (function.has_width(4, c) & function.has_width(1, b))
}

// 39: i32 or pointer b, typed or untyped, becomes untyped pointer a.
pub fn check_bytes(function: &Function, a: usize, b: usize) -> bool
    ensures { result ≡ keeps_rule function.now (check_bytes a b) }
{
    into_bytes(function, a)
        & (function.has_width(4, b) | (function.is_pointer(b) | function.is_untyped(b)))
}
