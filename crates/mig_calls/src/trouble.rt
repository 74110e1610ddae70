//! Which calls on files in memory aren't made, fail, or do less than they were asked.
ghost use Rattle.std.specs.Prelude.{◌≡◌, ◌-◌, ◌^◌, [], None};

use std::alloc::Global;

/// What goes wrong with calls. They are numbered from 1.
#[derive(Drop)]
pub struct CallTrouble {
    /// The numbers of the calls that fail.
    pub failing: Vec<u64>,
    /// How many calls are made before all others fail.
    pub fuse: Option<u64>,
    /// Each call whose number is a multiple of this one is interrupted. None where it is 0.
    pub interrupts: u64,
    /// How many bytes a read or a write moves at most.
    pub most_bytes: usize,
    /// How many files are open at most.
    pub most_open: usize,
}

impl CallTrouble {
    /// Nothing goes wrong.
    pub fn none(alloc: Global) -> CallTrouble
        ensures failing { result.failing.items ≡ [] }
        ensures others { result ≡ record { failing = result.failing; fuse = None; interrupts = 0; most_bytes = 2 ^ 64 - 1; most_open = 2 ^ 64 - 1 } }
    {
        CallTrouble {
            failing: Vec::new(alloc),
            fuse: None,
            interrupts: 0,
            most_bytes: usize::MAX,
            most_open: usize::MAX,
        }
    }

    /// Whether the call of this number is interrupted.
    pub fn interrupts(&self, number: u64) -> bool {
        self.interrupts != 0 && number % self.interrupts == 0
    }

    /// Whether it fails.
    pub fn fails(&self, number: u64) -> bool {
        let burned = match self.fuse {
            Some(calls) => calls < number,
            None => false,
        };
        burned || self.failing.contains(&number)
    }
}
