// Kind 34 in code: what a return closes. The state is trusted: nothing is tested that an accepted module and a tested state guarantee.
#![tactic(auto)]

ghost use Rattle.std.specs.Prelude.{◌≡◌, ◌+◌, ◌<◌, ◌≤◌, length};
ghost use Rattle.words.specs.Bytes.{byte_at};
ghost use Rattle.rules.specs.Limits.{state_bytes, pages, most_frames, most_regions};
ghost use Rattle.rules.specs.State.{written};
ghost use Rattle.pages.specs.Known.{Used};
ghost use Rattle.returns.specs.Left.{closing_by, closed_from, leaving_by, closed_if, owned_in, local_set};

use pages::KNOWN;
use regions::{SET, add_locals};
use state::fields::{clear_frame, clear_marks, owner, put_frames, put_owner};
use state::places::owner_place;
use words::word_at;

// Page p is nobody's now and has no used place, where a region of the set owns it.
fn close_page(a: &[u8; SET], s: &mut [u8], known: &mut [u32; KNOWN], p: u32)
    requires { (length s.old ≡ state_bytes) × (p < pages) × Used known.old s.old }
    ensures { (s.new ≡ closed_if (owned_in a.now s.old p) p s.old) × Used known.new s.new }
{
    if a[usize::from(owner(s, p))] != 0 {
        known[p as usize] = 0;
        put_owner(s, p, 0);
        clear_marks(s, p);
    }
}

// The four pages from p on.
fn close_four(a: &[u8; SET], s: &mut [u8], known: &mut [u32; KNOWN], p: u32)
    requires { (length s.old ≡ state_bytes) × (p + 4 ≤ pages) × Used known.old s.old }
    ensures { (s.new ≡ closed_from a.now p 4 s.old) × Used known.new s.new }
{
    for i in 0..4 {
        close_page(a, s, known, p + i);
    }
}

// The four pages from p on, where one has an owner: of the others there is nothing to close.
fn close_owned(a: &[u8; SET], s: &mut [u8], known: &mut [u32; KNOWN], p: u32)
    requires { (length s.old ≡ state_bytes) × (p + 4 ≤ pages) × (byte_at a.now 0 ≡ 0) × Used known.old s.old }
    ensures { (s.new ≡ closed_from a.now p 4 s.old) × Used known.new s.new }
{
    if word_at(s, owner_place(p)) != 0 {
        close_four(a, s, known, p);
    }
}

fn close_pages(a: &[u8; SET], s: &mut [u8], known: &mut [u32; KNOWN])
    requires { (length s.old ≡ state_bytes) × (byte_at a.now 0 ≡ 0) × Used known.old s.old }
    ensures { (s.new ≡ written (closing_by (owned_in a.now s.old) pages) s.old) × Used known.new s.new }
{
    for i in 0..16 {
        close_owned(a, s, known, 4 * i);
    }
}

// The pages of frame k's m local regions, behind n region parameters: none where there is no local region.
fn close_locals(s: &mut [u8], known: &mut [u32; KNOWN], k: u32, n: u32, m: u32)
    requires { (length s.old ≡ state_bytes) × (k < most_frames) × (n + m ≤ most_regions) × Used known.old s.old }
    ensures { (s.new ≡ written (closing_by (owned_in (local_set s.old k n m) s.old) pages) s.old) × Used known.new s.new }
{
    if 0 < m {
        let mut a = [0u8; SET];
        add_locals(&mut a, s, k, n, m);
        close_pages(&a, s, known);
    }
}

// The return of frame k, which is the top frame, of a function with n region parameters and m local regions. Of the pages that it closes
// nothing is known to be used.
pub fn leave(s: &mut [u8], known: &mut [u32; KNOWN], k: u32, n: u32, m: u32)
    requires { (length s.old ≡ state_bytes) × (k < most_frames) × (n + m ≤ most_regions) × Used known.old s.old }
    ensures { (s.new ≡ written (leaving_by (owned_in (local_set s.old k n m) s.old) k) s.old) × Used known.new s.new }
{
    close_locals(s, known, k, n, m);
    clear_frame(s, k);
    put_frames(s, k as u8);
}
