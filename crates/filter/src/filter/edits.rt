//! The calls on single fingerprints.
ghost use Rattle.std.specs.Prelude.{◌≡◌};
ghost use Rattle.filter.specs.Filters.{SameFilter, SaysWhether, Added, Taken};

use crate::editing::{put_entry, take_entry};
use crate::fault::FilterFault;
use crate::filter::Filter;

impl Filter<'_> {
    /// Whether an entry has the fingerprint; refused where it is no fingerprint under the plan.
    pub fn has(&self, fingerprint: u64) -> Result<bool, FilterFault>
        ensures { SaysWhether self.now fingerprint result }
    {
        if !self.plan.admits(fingerprint) {
            return Err(FilterFault::WideFingerprint);
        }
        Ok(self.layout().has(fingerprint))
    }

    /// Adds one more entry of a fingerprint, equal ones included. Refused where it is no fingerprint under the plan, and then where some quotient
    /// would be crowded, that is, where no slot from its quotient on is free; nothing is then changed.
    pub fn add(&mut self, fingerprint: u64) -> Result<(), FilterFault>
        ensures same { SameFilter self.old self.new }
        ensures done { Added self.old self.new fingerprint result }
    {
        if !self.plan.admits(fingerprint) {
            return Err(FilterFault::WideFingerprint);
        }
        let Some(entry) = self.layout().arrival(fingerprint) else {
            return Err(FilterFault::NoSlot);
        };
        let end = self.plan.size_of(self.blocks);
        put_entry(&mut self.words[..end], self.plan.width(), entry);
        self.held += 1;
        Ok(())
    }

    /// Takes one entry of a fingerprint out. Refused where it is no fingerprint under the plan, and then where no entry has it; nothing is then changed.
    pub fn take(&mut self, fingerprint: u64) -> Result<(), FilterFault>
        ensures same { SameFilter self.old self.new }
        ensures done { Taken self.old self.new fingerprint result }
    {
        if !self.plan.admits(fingerprint) {
            return Err(FilterFault::WideFingerprint);
        }
        let Some(entry) = self.layout().departure(fingerprint) else {
            return Err(FilterFault::NoSuchFingerprint);
        };
        let end = self.plan.size_of(self.blocks);
        take_entry(&mut self.words[..end], self.plan.width(), entry);
        self.held -= 1;
        Ok(())
    }
}
