// Readers and writers of a state of the right length at indexes in range, without a test: for the steps of a run. A writer leaves
// exactly its write.
ghost use Rattle.std.specs.Prelude.{◌≡◌, ◌+◌, ◌<◌, ◌≤◌, length};
ghost use Rattle.words.specs.Widths.{width_of};
ghost use Rattle.rules.specs.Limits.{state_bytes, pages, page_bytes, memory_bytes, most_frames, most_registers, most_regions};
ghost use Rattle.rules.specs.State.{view, frame_function, frame_instruction, frame_register, frame_map, page_owner, page_mark, memory_number, written, put_status, put_frames, put_output_count, put_result, put_range, put_owner, put_mark, put_marks, clear_marks, clear_memory, put_memory, put_register, put_instruction, put_frame, clear_frame};
ghost use Rattle.state.specs.Apply.{nothing};
ghost use Rattle.state.specs.Puts.{after};
ghost use Rattle.state.specs.NewFrame.{put_region};

use crate::places::{
    frame_place, function_place, instruction_place, map_place, mark_place, marks_place,
    memory_place, owner_place, register_place,
};
use crate::{LiveRegion, Machine, RegionVariable};
use rules::PageRange;
use words::{
    bit_clear, bit_of, bit_set, clear, half_at, load, put_byte, put_half, put_word, store, word_at,
};

// ---- readers

pub fn status(s: &[u8]) -> u8
    requires { length s.now ≡ state_bytes }
    ensures { result ≡ (view s.now).status }
{
    s[Machine::STATUS_AT]
}

pub fn frames(s: &[u8]) -> u8
    requires { length s.now ≡ state_bytes }
    ensures { result ≡ (view s.now).frames }
{
    s[Machine::FRAMES_AT]
}

pub fn range(s: &[u8]) -> PageRange
    requires { length s.now ≡ state_bytes }
    ensures { result ≡ (view s.now).range }
{
    PageRange {
        below: s[Machine::RANGE_AT],
        above: s[Machine::RANGE_AT + 1],
    }
}

pub fn output_count(s: &[u8]) -> u32
    requires { length s.now ≡ state_bytes }
    ensures { (result ≡ (view s.now).output_count) × (result < 65536) }
{
    half_at(s, Machine::OUTPUT_COUNT_AT)
}

pub fn function(s: &[u8], k: u32) -> u8
    requires { (length s.now ≡ state_bytes) × (k < most_frames) }
    ensures { result ≡ frame_function s.now k }
{
    let i = function_place(k);
    s[i]
}

pub fn instruction(s: &[u8], k: u32) -> u32
    requires { (length s.now ≡ state_bytes) × (k < most_frames) }
    ensures { (result ≡ frame_instruction s.now k) × (result < 65536) }
{
    half_at(s, instruction_place(k))
}

pub fn register(s: &[u8], k: u32, a: u32) -> u32
    requires { (length s.now ≡ state_bytes) × ((k < most_frames) × (a < most_registers)) }
    ensures { result ≡ frame_register s.now k a }
{
    word_at(s, register_place(k, a))
}

// The live region to which frame k's map leads from a region variable.
pub fn region_of(s: &[u8], k: u32, variable: RegionVariable) -> LiveRegion
    requires { (length s.now ≡ state_bytes) × ((k < most_frames) × (variable.0 < most_regions)) }
    ensures { result.0 ≡ frame_map s.now k variable.0 }
{
    let i = map_place(k, variable.0);
    LiveRegion(s[i])
}

pub fn owner(s: &[u8], p: u32) -> u8
    requires { (length s.now ≡ state_bytes) × (p < pages) }
    ensures { result ≡ page_owner s.now p }
{
    let i = owner_place(p);
    s[i]
}

pub fn mark(s: &[u8], p: u32, j: u32) -> u8
    requires { (length s.now ≡ state_bytes) × ((p < pages) × (j < page_bytes)) }
    ensures { (result ≡ page_mark s.now p j) × (result < 2) }
{
    let i = mark_place(p, j);
    bit_of(s[i], j % 8)
}

// The number in the w bytes (1, 2, else 4) from address x on.
pub fn memory(s: &[u8], x: u32, w: u64) -> u32
    requires { (length s.now ≡ state_bytes) × (x + width_of w ≤ memory_bytes) }
    ensures { result ≡ memory_number (view s.now).memory x (width_of w) }
{
    load(s, memory_place(x), w)
}

// ---- writers

pub fn put_status(s: &mut [u8], x: u8)
    requires { length s.old ≡ state_bytes }
    ensures { s.new ≡ after (put_status x) s.old }
{
    put_byte(s, Machine::STATUS_AT, x);
}

pub fn put_frames(s: &mut [u8], n: u8)
    requires { length s.old ≡ state_bytes }
    ensures { s.new ≡ after (put_frames n) s.old }
{
    put_byte(s, Machine::FRAMES_AT, n);
}

pub fn put_output_count(s: &mut [u8], n: u32)
    requires { length s.old ≡ state_bytes }
    ensures { s.new ≡ after (put_output_count n) s.old }
{
    put_half(s, Machine::OUTPUT_COUNT_AT, n);
}

pub fn put_result(s: &mut [u8], x: u32)
    requires { length s.old ≡ state_bytes }
    ensures { s.new ≡ after (put_result x) s.old }
{
    put_word(s, Machine::RESULT_AT, x);
}

pub fn put_range(s: &mut [u8], range: PageRange)
    requires { length s.old ≡ state_bytes }
    ensures { s.new ≡ after (put_range range) s.old }
{
    s[Machine::RANGE_AT + 1] = range.above;
    s[Machine::RANGE_AT] = range.below;
}

pub fn put_owner(s: &mut [u8], p: u32, x: u8)
    requires { (length s.old ≡ state_bytes) × (p < pages) }
    ensures { s.new ≡ after (put_owner p x) s.old }
{
    put_byte(s, owner_place(p), x);
}

// Place j of page p is used now.
pub fn set_mark(s: &mut [u8], p: u32, j: u32)
    requires { (length s.old ≡ state_bytes) × ((p < pages) × (j < page_bytes)) }
    ensures { s.new ≡ after (put_mark s.old p j 1) s.old }
{
    let i = mark_place(p, j);
    let b = bit_set(s[i], j % 8);
    put_byte(s, i, b);
}

// c places of page p from place j on are used now.
pub fn set_marks(s: &mut [u8], p: u32, j: u32, c: u32)
    requires { (length s.old ≡ state_bytes) × ((p < pages) × (j + c ≤ page_bytes)) }
    ensures { s.new ≡ written (put_marks s.old p j c) s.old }
{
    for i in 0..c {
        set_mark(s, p, j + i);
    }
}

// Place j of page p is free now.
pub fn clear_mark(s: &mut [u8], p: u32, j: u32)
    requires { (length s.old ≡ state_bytes) × ((p < pages) × (j < page_bytes)) }
    ensures { s.new ≡ after (put_mark s.old p j 0) s.old }
{
    let i = mark_place(p, j);
    let b = bit_clear(s[i], j % 8);
    put_byte(s, i, b);
}

pub fn clear_marks(s: &mut [u8], p: u32)
    requires { (length s.old ≡ state_bytes) × (p < pages) }
    ensures { s.new ≡ after (clear_marks p) s.old }
{
    clear(s, marks_place(p), Machine::MARK_BYTES);
}

// The n bytes from address x on become zero.
pub fn clear_memory(s: &mut [u8], x: u32, n: u32)
    requires { (length s.old ≡ state_bytes) × (x + n ≤ memory_bytes) }
    ensures { s.new ≡ after (clear_memory x n) s.old }
{
    clear(s, memory_place(x), n as usize);
}

// The w bytes (1, 2, else 4) from address x on become y.
pub fn put_memory(s: &mut [u8], x: u32, w: u64, y: u32)
    requires { (length s.old ≡ state_bytes) × (x + width_of w ≤ memory_bytes) }
    ensures { s.new ≡ after (put_memory x (width_of w) y) s.old }
{
    store(s, memory_place(x), w, y);
}

pub fn put_register(s: &mut [u8], k: u32, a: u32, x: u32)
    requires { (length s.old ≡ state_bytes) × ((k < most_frames) × (a < most_registers)) }
    ensures { s.new ≡ after (put_register k a x) s.old }
{
    put_word(s, register_place(k, a), x);
}

pub fn put_instruction(s: &mut [u8], k: u32, d: u32)
    requires { (length s.old ≡ state_bytes) × (k < most_frames) }
    ensures { s.new ≡ after (put_instruction k d) s.old }
{
    put_half(s, instruction_place(k), d);
}

pub fn clear_frame(s: &mut [u8], k: u32)
    requires { (length s.old ≡ state_bytes) × (k < most_frames) }
    ensures { s.new ≡ after (clear_frame k) s.old }
{
    clear(s, frame_place(k), Machine::FRAME_BYTES);
}

// A frame of function g at instruction 0, with map and registers zero.
pub fn new_frame(s: &mut [u8], k: u32, g: u8)
    requires { (length s.old ≡ state_bytes) × (k < most_frames) }
    ensures { s.new ≡ after (put_frame k g nothing nothing) s.old }
{
    clear_frame(s, k);
    put_byte(s, function_place(k), g);
}

// Frame k's map leads from the variable to the live region now.
pub fn put_region(s: &mut [u8], k: u32, variable: RegionVariable, live: LiveRegion)
    requires { (length s.old ≡ state_bytes) × ((k < most_frames) × (variable.0 < most_regions)) }
    ensures { s.new ≡ after (put_region k variable.0 live.0) s.old }
{
    put_byte(s, map_place(k, variable.0), live.0);
}
