// Kinds 18 to 20 in code: operations on integers of w bytes, w being 1, 2 or 4: a value, or why the module stops. The largest number of a
// width comes with it as a mask m, so that wrapping is one `and`. Operations take both in one number v, and take apart what they need.
#![tactic(auto)]

ghost use Rattle.std.specs.Prelude.{MatchOption, ◌≡◌, ℕ, ◌+◌, ◌-◌, ◌%◌, ◌/◌, ◌*◌, ◌^◌, ◌≤◌, ◌<◌, ltb};
ghost use Rattle.words.specs.Widths.{IsWidth};
ghost use Rattle.rules.specs.Limits.{no_quotient};
ghost use Rattle.rules.specs.Arithmetic.{value, cut, flag, value_if, left_by, right_by, magnitude, nearest_by, negative, biased, operation_of, operated, sign_extended};
ghost use Rattle.arithmetic.specs.Meaning.{computed_of, answer_of, operation_number, width_in, mask_in, Sized};

use rules::stop::Stop;

// 256 to the width of an i32, and the lowest i32 that is negative.
const WORD: u64 = 4294967296;

const NEGATIVE: u32 = 2147483648;

// What kind 18 does, in the order of their numbers: 0 add to 13 less signed.
#[derive(Clone, Copy, PartialEq, Eq)]
pub enum Operation {
    Add,
    Subtract,
    Multiply,
    And,
    Or,
    Xor,
    ShiftLeft,
    ShiftRight,
    Quotient,
    Remainder,
    Nearest,
    Equal,
    Less,
    LessSigned,
}

impl Operation {
    // The operation with this number, if there is one.
    pub fn numbered(op: u32) -> Option<Operation>
        ensures { MatchOption result (14 ≤ op) (λ o. operation_number o ≡ op) }
    {
        match op {
            0 => Some(Operation::Add),
            1 => Some(Operation::Subtract),
            2 => Some(Operation::Multiply),
            3 => Some(Operation::And),
            4 => Some(Operation::Or),
            5 => Some(Operation::Xor),
            6 => Some(Operation::ShiftLeft),
            7 => Some(Operation::ShiftRight),
            8 => Some(Operation::Quotient),
            9 => Some(Operation::Remainder),
            10 => Some(Operation::Nearest),
            11 => Some(Operation::Equal),
            12 => Some(Operation::Less),
            13 => Some(Operation::LessSigned),
            _ => None,
        }
    }
}

fn width_in(v: u64) -> u64
    ensures { result ≡ width_in v }
{
    v / WORD
}

fn mask_in(v: u64) -> u32
    ensures { result ≡ mask_in v }
{
    (v % WORD) as u32
}

// 256 to the width.
fn range(w: u64) -> u64
    requires { IsWidth w }
    ensures { (result ≡ 256 ^ w) × (0 < result) × (result ≤ 2 ^ 32) }
{
    if w == 1 {
        256
    } else if w == 2 {
        65536
    } else {
        WORD
    }
}

// n cut to the width whose largest number is m.
pub fn cut_by(n: u64, m: u32) -> u32
    ensures { (w : ℕ) → IsWidth w → m + 1 ≡ 256 ^ w → result ≡ cut w n }
{
    (n & u64::from(m)) as u32
}

// The width in bits.
fn bits_of(w: u64) -> u64
    requires { IsWidth w }
    ensures { (result ≡ 8 * w) × (result ≤ 32) }
{
    8 * w
}

#[tactic(auto, unfolding(rules::specs::Arithmetic::flag))]
fn flag(b: bool) -> u32
    ensures { result ≡ flag b }
{
    u32::from(b)
}

// Moved by half the range, so that the signed order becomes the unsigned one.
#[tactic(auto, unfolding(rules::specs::Arithmetic::biased))]
fn bias(w: u64, x: u32) -> u64
    requires { IsWidth w }
    ensures { result ≡ biased w x }
{
    let m = range(w);
    (u64::from(x) + m / 2) % m
}

fn shift_left(v: u64, x: u32, y: u32) -> Result<u32, Stop>
    requires { Sized v }
    ensures { computed_of result ≡ left_by (ltb y (8 * width_in v)) (width_in v) x y }
{
    if u64::from(y) < bits_of(width_in(v)) {
        Ok(cut_by(u64::from(x) << y, mask_in(v)))
    } else {
        Err(Stop::ShiftPast)
    }
}

// Zeros come in from above.
fn logical_right(x: u32, y: u32) -> u32
    requires { y < 32 }
    ensures { result ≡ x / 2 ^ y }
{
    x >> y
}

#[tactic(auto, unfolding(rules::specs::Arithmetic::right_by))]
fn shift_right(v: u64, x: u32, y: u32) -> Result<u32, Stop>
    requires { Sized v }
    ensures { computed_of result ≡ right_by (ltb y (8 * width_in v)) x y }
{
    if u64::from(y) < bits_of(width_in(v)) {
        Ok(logical_right(x, y))
    } else {
        Err(Stop::ShiftPast)
    }
}

// How far an i32 lies from zero.
#[tactic(auto, unfolding(rules::specs::Arithmetic::magnitude))]
fn magnitude_of(x: u32) -> u64
    ensures { (result ≡ magnitude x) × (result ≤ negative) }
{
    if x < NEGATIVE {
        u64::from(x)
    } else {
        WORD - u64::from(x)
    }
}

#[tactic(auto, unfolding(rules::specs::Arithmetic::value_if))]
fn positive(q: u64) -> Result<u32, Stop>
    ensures { computed_of result ≡ value_if (ltb q negative) no_quotient q }
{
    if q < u64::from(NEGATIVE) {
        Ok(q as u32)
    } else {
        Err(Stop::NoQuotient)
    }
}

fn negated(q: u64) -> u32
    requires { q ≤ 256 ^ 4 }
    ensures { result ≡ cut 4 (256 ^ 4 - q) }
{
    ((WORD - q) % WORD) as u32
}

// What is divided by 2q, so that the quotient of p and q comes out to the nearest, halves upwards.
fn dividend(p: u64, q: u64) -> u64
    requires { (p ≤ negative) × (q ≤ negative) × (0 < q) }
    ensures { result ≡ 2 * p + q }
{
    2 * p + q
}

// The quotient of two i32 to the nearest, halves away from zero.
fn nearest(x: u32, y: u32) -> Result<u32, Stop>
    ensures { computed_of result ≡ nearest_by (ltb 0 y) x y }
{
    if y == 0 {
        return Err(Stop::NoQuotient);
    }
    let p = magnitude_of(x);
    let q = magnitude_of(y);
    let n = dividend(p, q) / (2 * q);
    if (x < NEGATIVE) == (y < NEGATIVE) {
        positive(n)
    } else {
        Ok(negated(n))
    }
}

#[tactic(auto, unfolding(rules::specs::Arithmetic::value_if))]
fn quotient(x: u32, y: u32) -> Result<u32, Stop>
    ensures { computed_of result ≡ value_if (ltb 0 y) no_quotient (x / y) }
{
    x.checked_div(y).ok_or(Stop::NoQuotient)
}

#[tactic(auto, unfolding(rules::specs::Arithmetic::value_if))]
fn remainder(x: u32, y: u32) -> Result<u32, Stop>
    ensures { computed_of result ≡ value_if (ltb 0 y) no_quotient (x % y) }
{
    x.checked_rem(y).ok_or(Stop::NoQuotient)
}

fn add(v: u64, x: u32, y: u32) -> u32
    requires { Sized v }
    ensures { result ≡ cut (width_in v) (x + y) }
{
    cut_by(u64::from(x) + u64::from(y), mask_in(v))
}

// 256 ^ 4 is added before the cut, so that nothing goes below zero: every range divides it.
fn subtract(v: u64, x: u32, y: u32) -> u32
    requires { Sized v × (y < 256 ^ width_in v) }
    ensures { result ≡ cut (width_in v) (x + (256 ^ width_in v - y)) }
{
    cut_by(u64::from(x) + (WORD - u64::from(y)), mask_in(v))
}

fn multiply(v: u64, x: u32, y: u32) -> u32
    requires { Sized v }
    ensures { result ≡ cut (width_in v) (x * y) }
{
    cut_by(u64::from(x) * u64::from(y), mask_in(v))
}

// The signed order.
fn less(v: u64, x: u32, y: u32) -> bool
    requires { Sized v }
    ensures { result ≡ ltb (biased (width_in v) x) (biased (width_in v) y) }
{
    let w = width_in(v);
    bias(w, x) < bias(w, y)
}

// An operation on two integers of the width that v has.
#[tactic(auto, unfolding(rules::specs::Arithmetic::operation_of, rules::specs::Arithmetic::operated))]
pub fn perform(operation: Operation, v: u64, x: u32, y: u32) -> Result<u32, Stop>
    requires { Sized v × (y < 256 ^ width_in v) }
    ensures { computed_of result ≡ operated (operation_of (operation_number operation)) (width_in v) x y }
{
    match operation {
        Operation::Add => Ok(add(v, x, y)),
        Operation::Subtract => Ok(subtract(v, x, y)),
        Operation::Multiply => Ok(multiply(v, x, y)),
        Operation::And => Ok(x & y),
        Operation::Or => Ok(x | y),
        Operation::Xor => Ok(x ^ y),
        Operation::ShiftLeft => shift_left(v, x, y),
        Operation::ShiftRight => shift_right(v, x, y),
        Operation::Quotient => quotient(x, y),
        Operation::Remainder => remainder(x, y),
        Operation::Nearest => nearest(x, y),
        Operation::Equal => Ok(flag(x == y)),
        Operation::Less => Ok(flag(x < y)),
        Operation::LessSigned => Ok(flag(less(v, x, y))),
    }
}

// Operation number op, if there is one, on two integers of the width that v has.
pub fn compute(op: u32, v: u64, x: u32, y: u32) -> Option<Result<u32, Stop>>
    requires { Sized v × (y < 256 ^ width_in v) }
    ensures { answer_of result ≡ operated (operation_of op) (width_in v) x y }
{
    match Operation::numbered(op) {
        Some(operation) => Some(perform(operation, v, x, y)),
        None => None,
    }
}

// x of w bytes with its sign, cut to the width whose largest number is m.
#[tactic(auto, unfolding(rules::specs::Arithmetic::sign_extended))]
pub fn extend(m: u32, w: u64, x: u32) -> u32
    requires { IsWidth w }
    ensures { (u : ℕ) → IsWidth u → m + 1 ≡ 256 ^ u → result ≡ sign_extended u w x }
{
    let past = range(w);
    if 2 * u64::from(x) < past {
        cut_by(u64::from(x), m)
    } else {
        cut_by(u64::from(x) + (WORD - past), m)
    }
}
