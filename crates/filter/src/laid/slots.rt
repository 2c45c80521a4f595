//! Reads slots, each from the head of a block near it.
ghost use Rattle.std.specs.Prelude.{◌≡◌, ◌+◌, ◌*◌, ◌^◌, ◌<◌, IfOk, MatchOption};
ghost use Rattle.layout.specs.Load.{load, start};
ghost use Rattle.filter.specs.Slots.{HomeBlock, InRun, slot_shown};
ghost use Rattle.filter.specs.Layouts.{bits_of, entries, many_of};

use crate::cuts::fingerprint_of;
use crate::laid::Layout;
use blocks::{Quotient, Slot};
use std::alloc::{AllocError, Global};

impl Layout<'_> {
    /// The slot at which the runs of block `a` begin: as many past its first one as its offset says.
    fn head_of(&self, a: u32) -> Slot
        requires { 64 * a < 2 ^ 32 }
        ensures { result.0 ≡ start (many_of self.now) (64 * a) }
    {
        Slot(64 * a + self.blocks.offset(a) as u32)
    }

    /// The block among whose runs slot `s` lies: the last one whose runs begin at or before it.
    fn home_block(&self, s: Slot) -> u32
        ensures { HomeBlock (many_of self.now) s.0 result }
    {
        for a in (0..s.0 / 64 + 1).rev() {
            if self.head_of(a).0 <= s.0 {
                return a;
            }
        }
        unreachable!()
    }

    /// The quotient of the entry in slot `s`: none where the slot is free.
    fn quotient_at(&self, s: Slot) -> Option<Quotient>
        ensures { MatchOption result
            (load (many_of self.now) s.0 + many_of self.now s.0 ≡ 0)
            (λ c. InRun (many_of self.now) c.0 s.0) }
    {
        if self.stop_of(Quotient(s.0)).0 == s.0 {
            return None;
        }
        let a = self.home_block(s);
        let head = self.head_of(a);
        let before = self.blocks.runends_between(head, s);
        self.blocks.nth_occupied(a, before + 1)
    }

    /// What slot `s` holds: the quotient and the remainder of its entry, or none where it is free.
    pub(crate) fn slot(&self, s: Slot) -> Option<(Quotient, u32)>
        ensures { result ≡ slot_shown (bits_of self.now) (entries self.now) s.0 }
    {
        let c = self.quotient_at(s)?;
        Some((c, self.blocks.remainder(s)))
    }

    /// All entries in rising order. Memory for `held` of them is reserved first.
    pub(crate) fn entries(&self, heap: Global, held: u32) -> Result<Vec<u64>, AllocError>
        ensures { IfOk result (λ v. v.items ≡ entries self.now) }
    {
        let mut list = Vec::with_capacity(heap, held as usize)?;
        for s in 0..64 * self.count {
            if let Some((c, rem)) = self.slot(Slot(s)) {
                list.push(fingerprint_of(self.blocks.width, c, rem))?;
            }
        }
        Ok(list)
    }
}
