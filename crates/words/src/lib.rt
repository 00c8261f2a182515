// Numbers in lent bytes: total readers for what is not trusted, readers and writers without a test for the hot loop, and the bits of a
// byte. Each contract is an equation with the definition in specs/, for every byte that is lent.
#![tactic(auto)]

ghost use Rattle.std.specs.Prelude.{◌≡◌, ◌+◌, ◌%◌, ◌≤◌, ◌<◌, length};
ghost use Rattle.words.specs.Bytes.{byte_at, number, put, fill};
ghost use Rattle.words.specs.Bits.{bit, with_bit};
ghost use Rattle.words.specs.Widths.{width_of};

// The lowest byte of v.
pub fn low(v: u32) -> u8
    ensures { result ≡ v % 256 }
{
    (v % 256) as u8
}

// ---- readers that ask for their bytes. (Those of two and of four bytes are a line each: a parameter for the width would be longer.)

// The two bytes from i on.
pub fn half_at(s: &[u8], i: usize) -> u32
    requires { i + 2 ≤ length s.now }
    ensures { (result ≡ number 2 s.now i) × (result < 65536) }
{
    u32::from(u16::from_le_bytes([s[i], s[i + 1]]))
}

// The four bytes from i on. (One load: LLVM merges the four.)
pub fn word_at(s: &[u8], i: usize) -> u32
    requires { i + 4 ≤ length s.now }
    ensures { result ≡ number 4 s.now i }
{
    u32::from_le_bytes([s[i], s[i + 1], s[i + 2], s[i + 3]])
}

// The primitive of w bytes from i on: 1, 2, else 4, which is asked first: it is the most frequent.
pub fn load(s: &[u8], i: usize, w: u64) -> u32
    requires { i + width_of w ≤ length s.now }
    ensures { result ≡ number (width_of w) s.now i }
{
    if (w != 1) & (w != 2) {
        word_at(s, i)
    } else if w == 1 {
        u32::from(s[i])
    } else {
        half_at(s, i)
    }
}

// ---- total readers: past the end a byte is 0

pub fn byte(s: &[u8], i: usize) -> u8
    ensures { result ≡ byte_at s.now i }
{
    s.get(i).copied().unwrap_or(0)
}

// The two bytes from i on: one load but at the last byte. (No index wraps before the end of the slice.)
pub fn half(s: &[u8], i: usize) -> u32
    ensures { (result ≡ number 2 s.now i) × (result < 65536) }
{
    let n = s.len();
    if i < n {
        if n - i < 2 {
            u32::from(s[i])
        } else {
            half_at(s, i)
        }
    } else {
        0
    }
}

// The four bytes from i on: one load but at the end of the slice.
pub fn word(s: &[u8], i: usize) -> u32
    ensures { result ≡ number 4 s.now i }
{
    let n = s.len();
    if i < n {
        if n - i < 4 {
            half(s, i) + half(s, i + 2) * 65536
        } else {
            word_at(s, i)
        }
    } else {
        0
    }
}

// ---- writers

// Past the end nothing is stored.
pub fn set_byte(s: &mut [u8], i: usize, v: u8)
    ensures { s.new ≡ put 1 s.old i v }
{
    if i < s.len() {
        s[i] = v;
    }
}

pub fn put_byte(s: &mut [u8], i: usize, v: u8)
    requires { i < length s.old }
    ensures { s.new ≡ put 1 s.old i v }
{
    s[i] = v;
}

// What does not fit two bytes is cut off.
pub fn put_half(s: &mut [u8], i: usize, v: u32)
    requires { i + 2 ≤ length s.old }
    ensures { s.new ≡ put 2 s.old i v }
{
    s[i..i + 2].copy_from_slice(&((v % 65536) as u16).to_le_bytes());
}

pub fn put_word(s: &mut [u8], i: usize, v: u32)
    requires { i + 4 ≤ length s.old }
    ensures { s.new ≡ put 4 s.old i v }
{
    s[i..i + 4].copy_from_slice(&v.to_le_bytes());
}

// v as the primitive of w bytes from i on: 1, 2, else 4, which is asked first likewise.
pub fn store(s: &mut [u8], i: usize, w: u64, v: u32)
    requires { i + width_of w ≤ length s.old }
    ensures { s.new ≡ put (width_of w) s.old i v }
{
    if (w != 1) & (w != 2) {
        put_word(s, i, v);
    } else if w == 1 {
        s[i] = low(v);
    } else {
        put_half(s, i, v);
    }
}

// The n bytes from i on become 0.
pub fn clear(s: &mut [u8], i: usize, n: usize)
    requires { i + n ≤ length s.old }
    ensures { s.new ≡ fill n s.old i 0 }
{
    s[i..i + n].fill(0);
}

// ---- bits of a byte

pub fn bit_of(b: u8, k: u32) -> u8
    requires { k < 8 }
    ensures { (result ≡ bit b k) × (result < 2) }
{
    (b >> k) % 2
}

pub fn bit_set(b: u8, k: u32) -> u8
    requires { k < 8 }
    ensures { result ≡ with_bit b k 1 }
{
    b | (1 << k)
}

pub fn bit_clear(b: u8, k: u32) -> u8
    requires { k < 8 }
    ensures { result ≡ with_bit b k 0 }
{
    b & !(1 << k)
}
