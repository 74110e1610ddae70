//! Which calls of a store in memory fail.
ghost use Rattle.std.specs.Prelude.{◌≡◌, ◌||◌, ◌+◌, Bool, true, false, suc, min, ◌^◌, ◌-◌, ◌≤◌};
ghost use Rattle.mig_base.specs.FaultCounts.{Rose};
ghost use Rattle.mig_store.specs.Troubles.{fails, fails_write, next_number, next_write};

use crate::StoreFailed;

#[derive(Drop)]
pub struct Trouble {
    pub failing: Vec<u64>,
    /// The number of the next call.
    pub number: u64,
    /// How many writes more come through.
    pub fuse: Option<u64>,
    /// The fuse stopped a write.
    pub blown: bool,
    pub faults: u64,
}

impl Trouble {
    // Takes the next number, and tells whether the call fails by it or after the fuse.
    pub fn next(&mut self) -> bool
        ensures fails { result ≡ fails self.old }
        ensures value { self.new ≡ next_number self.old }
        ensures faults { self.new.faults ≡ self.old.faults }
    {
        let fails = self.blown || self.failing.contains(&self.number);
        self.number = self.number.saturating_add(1);
        fails
    }

    // The same for a write, which the fuse may stop.
    pub fn next_write(&mut self) -> bool
        ensures fails { result ≡ fails_write self.old }
        ensures value { self.new ≡ next_write self.old }
        ensures faults { self.new.faults ≡ self.old.faults }
    {
        if self.next() {
            return true;
        }
        match self.fuse {
            Some(0) => {
                self.blown = true;
                true
            }
            Some(left) => {
                self.fuse = Some(left - 1);
                false
            }
            None => false,
        }
    }

    // Counts a fault.
    pub fn fault(&mut self) -> StoreFailed
        ensures value { self.new ≡ record self.old { faults = min (suc self.old.faults) (2 ^ 64 - 1) } }
        ensures rose { Rose self.old.faults self.new.faults }
        ensures later { self.old.faults ≤ self.new.faults }
    {
        self.faults = self.faults.saturating_add(1);
        StoreFailed
    }
}
