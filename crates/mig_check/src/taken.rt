//! The set of taken spots.
ghost use Rattle.std.specs.Prelude.{◌≡◌, ◌↔◌, ◌<◌, ◌&&◌, ◌||◌, IfOk, OnOk, false, length, not, true};
ghost use Rattle.mig_base.specs.declared.ids.Spot.{Spot};
ghost use Rattle.mig_base.specs.Layouts.{IsTaken};
ghost use Rattle.mig_check.specs.Tables.{IsTakenSet, layout_of, same_spot};
ghost use Rattle.mig_check.specs.SpotSets.{has_spot};

use mig_base::Spot;
use std::alloc::{AllocError, Global};
use std::collections::HashSet;

/// The spots that are taken.
#[derive(Drop)]
pub struct Taken {
    spots: HashSet<Spot>,
}

impl Taken {
    /// No spot is taken, and there is room for this many.
    pub fn with_capacity(alloc: Global, capacity: usize) -> Result<Taken, AllocError>
        ensures { IfOk result (λ taken. (t : Spot) → has_spot taken t ≡ false) }
    {
        Ok(Taken {
            spots: HashSet::with_capacity(alloc, capacity)?,
        })
    }

    /// Takes the spot, and says whether it was free.
    pub fn insert(&mut self, spot: Spot) -> Result<bool, AllocError>
        ensures was { IfOk result (λ free. free ≡ not (has_spot self.old spot)) }
        ensures after { OnOk result ((t : Spot) → has_spot self.new t ≡ (same_spot spot t || has_spot self.old t)) }
    {
        Ok(self.spots.insert(spot)?)
    }

    /// Frees the spot.
    pub fn remove(&mut self, spot: Spot)
        ensures { (t : Spot) → has_spot self.new t ≡ (not (same_spot spot t) && has_spot self.old t) }
    {
        self.spots.remove(&spot);
    }
}

/// The set of these spots.
pub fn take_all(alloc: Global, spots: &[Spot]) -> Result<Taken, AllocError>
    ensures { IfOk result (λ taken. IsTakenSet (has_spot taken) (layout_of spots.now)) }
{
    let mut taken = Taken::with_capacity(alloc, spots.len())?;
    for spot in spots {
        let _free = taken.insert(*spot)?;
    }
    Ok(taken)
}
