//! What the definitions of a migration promise of one another: why a stop at any moment loses no item.
//!
//! Each function does nothing; its contract is the law. Round k is the last whose mark counts. The first three laws hold of safe
//! images, and of those that are clean besides.
ghost use Rattle.mig_mover.specs.MoveLaws.{SoundByOtherBytes, SoundByMark, SoundByNoMark, ReachedByLastRound, SoundOnceReached, SafeByFreeBytes, HaltSafeByGate};

/// Between mark k and mark k + 1 the slots that round k left, and those that round k + 1 goes to, may hold any bytes: the items
/// stand elsewhere, and as many rounds count as before. So copies and erasures may be cut off at any byte, also after the last
/// mark.
pub fn slots_in_use_hold_anything()
    ensures { SoundByOtherBytes }
{}

/// Once each item that round k + 1 moves stands at its target, and round k's sources are zeros where they stay free, setting
/// mark k + 1 loses no item and counts the round.
pub fn copied_round_may_be_marked()
    ensures { SoundByMark }
{}

/// While mark k + 1 is being written it may hold any byte: where it isn't 1, as many rounds count as before.
pub fn unset_mark_holds_anything()
    ensures { SoundByNoMark }
{}

/// Once all rounds are marked and the last round's sources are zeros, each item stands at its last spot, and each named slot
/// that is free at the end is zeros.
pub fn last_round_reaches_the_target()
    ensures { ReachedByLastRound }
{}

/// A store that has reached the target is one from which no item is lost, so a further resumption finds it so.
pub fn reached_target_is_sound()
    ensures { SoundOnceReached }
{}

/// While a plan is closed after k rounds, the named slots that are free then may hold any bytes, and the plan could still go on.
pub fn free_slots_hold_anything()
    ensures { SafeByFreeBytes }
{}

/// Once these slots are zeros, the gate may hold any byte: where it is 1 the plan may go on, and otherwise it is closed, with
/// the items at their spots after k rounds.
pub fn gate_may_be_closed()
    ensures { HaltSafeByGate }
{}
