// Live regions: those local to a frame. A number x is 1 + a region, as an owner is.
ghost use Rattle.std.specs.Prelude.{◌≡◌, ℕ, ◌+◌, ◌<◌};
ghost use Rattle.rules.specs.State.{frame_map};
ghost use Rattle.stack.specs.Tells.{Tells};
ghost use Rattle.stack.specs.Facts.{head_at, Elsewhere, NotLocal, NotLive, LocalOk, LocalsOk};

use crate::untested::UntestedState;
use rules::Record;
use state::{Machine, RegionVariable};

impl UntestedState<'_> {
    // The record 7 of frame k's function.
    pub fn head(&self, k: u32) -> Record
        ensures { result ≡ head_at self.now.file.now self.now.bytes.now k }
    {
        let g = state::total::function(self.bytes, k);
        walk::tables::head_of(self.file, self.starts, usize::from(g))
    }

    // Entry i of frame k's map.
    pub fn region(&self, k: u32, i: u32) -> u32
        ensures { (result ≡ frame_map self.now.bytes.now k i) × (result < 256) }
    {
        u32::from(state::total::region_of(self.bytes, k, RegionVariable(i)).0)
    }

    // Entry i leads elsewhere than to x.
    fn elsewhere(&self, k: u32, i: u32, x: u32) -> bool
        ensures { Tells result (Elsewhere self.now.bytes.now k i x) }
    {
        self.region(k, i) + 1 != x
    }

    // None of the n entries from a on leads to x.
    fn none_leads(&self, k: u32, a: u32, n: u32, x: u32) -> bool
        requires { (a < 256) × (n < 256) }
        ensures { Tells result ((j : ℕ) → j < n → Elsewhere self.now.bytes.now k (a + j) x) }
    {
        (0..n).all(|j| self.elsewhere(k, a + j, x))
    }

    // x is not local to frame k.
    fn not_local(&self, k: u32, x: u32) -> bool
        ensures { Tells result (NotLocal self.now.file.now self.now.bytes.now x k) }
    {
        let h = self.head(k);
        self.none_leads(k, u32::from(h.a), u32::from(h.b), x)
    }

    // x is not local to one of the lowest n frames.
    pub fn not_live(&self, n: u32, x: u32) -> bool
        ensures { Tells result (NotLive self.now.file.now self.now.bytes.now n x) }
    {
        (0..n).all(|k| self.not_local(k, x))
    }

    // Local region i of frame k, whose local regions start at entry a.
    fn local_ok(&self, k: u32, a: u32, i: u32) -> bool
        requires { (a < 256) × (i < 256) }
        ensures { Tells result (LocalOk self.now.file.now self.now.bytes.now k a i) }
    {
        let r = self.region(k, a + i);
        let fresh = self.not_live(k, r + 1);
        let first = self.none_leads(k, a, i, r + 1);
        (r < Machine::LIVE_REGIONS) & (fresh & first)
    }

    // All local regions of frame k: below the limit, different, live in no frame below.
    pub fn locals_ok(&self, k: u32) -> bool
        ensures { Tells result (LocalsOk self.now.file.now self.now.bytes.now k) }
    {
        let h = self.head(k);
        let a = u32::from(h.a);
        (0..u32::from(h.b)).all(|i| self.local_ok(k, a, i))
    }
}
