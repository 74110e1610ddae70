//! Orders that are carried out one after the other, with a reply to each read.
ghost use Rattle.std.specs.Prelude.{◌≡◌, ◌-◌, ◌<◌, ◌≤◌, ◌∷◌, Bool, ℕ, [], All, IfErr, IfOk, OnOk, drop, length, take};
ghost use Rattle.hex.specs.Hex.{encode_lower};
ghost use Rattle.mig_base.specs.Safety.{Contents, IsSound};
ghost use Rattle.mig_base.specs.Stores.{State, flights, Looks, LeavesOnly};
ghost use Rattle.mig_base.specs.Tasks.{Task, IsTask};
ghost use Rattle.mig_base.specs.Texts.{text_of_lines, words};
ghost use Rattle.mig_mover.specs.Erasures.{AreAsked};
ghost use Rattle.mig_live.specs.Actions.{AreMade, actions_left};
ghost use Rattle.mig_live.specs.Orders.{all_steps, steps_of, IsOrder};
ghost use Rattle.mig_live.specs.Replies.{AreCutOff, AreMadeUpTo, ArePut, ArePutUpTo, IsServeFault};
ghost use Rattle.mig_live.specs.Sessions.{Session, InSight, InSightFor, InStep};
ghost use Rattle.mig_live.specs.declared.orders.Order.TheVariants.{Read};
ghost use Rattle.mig_words.specs.Puts.{Puts};

use crate::live::Live;
use crate::orders::Order;
use mig_base::{ItemId, Name};
use mig_io::{Sink, SinkFailed};
use mig_journal::digest_of;
use mig_store::{Store, StoreFailed};
use mig_words::TextPart::{Hex, Text};
use mig_words::put_parts;
use thiserror::Error;

/// Why orders aren't carried out to the end.
#[derive(Clone, Copy, Debug, PartialEq, Eq, Error)]
pub enum ServeFault {
    /// The store failed.
    #[error("the store failed")]
    Store,
    /// The sink failed.
    #[error("the sink failed")]
    Sink,
}

impl From<StoreFailed> for ServeFault {
    ghost use Rattle.std.specs.Prelude.{◌≡◌};
    ghost use Rattle.mig_live.specs.declared.serving.ServeFault.TheVariants as serve_fault;

    ghost from_gives = { λ _ e. e ≡ serve_fault.Store };

    fn from(_: StoreFailed) -> Self {
        ServeFault::Store
    }
}

impl From<SinkFailed> for ServeFault {
    ghost use Rattle.std.specs.Prelude.{◌≡◌};
    ghost use Rattle.mig_live.specs.declared.serving.ServeFault.TheVariants as serve_fault;

    ghost from_gives = { λ _ e. e ≡ serve_fault.Sink };

    fn from(_: SinkFailed) -> Self {
        ServeFault::Sink
    }
}

// Puts the line of an item of this name: the name, and the digest of the item's bytes.
fn put_reply<'a, K: Sink>(
    out: &mut K,
    name: &'a Name,
    digest: &'a [u8; 32],
) -> Result<(), SinkFailed>
    ensures { Puts (text_of_lines (words (name.now ∷ encode_lower digest.now ∷ []) ∷ [])) (K.state out.old) (K.state out.new) result }
{
    put_parts(
        out,
        &[Text(name.bytes()), Text(b" "), Hex(digest), Text(b"\n")],
    )
}

// Reads an item, and puts its line.
fn reply<K: Sink, S: Store>(
    live: &Live<'_>,
    store: &mut S,
    out: &mut K,
    item: ItemId,
) -> Result<(), ServeFault>
    requires item { item.0 < length live.now.task.input.items }
    requires none { flights (S.state store.old) ≡ [] }
    ensures served { OnOk result (ArePut live.now (S.state store.old) (Read item ∷ []) (K.state out.old) (K.state out.new)) }
    ensures put { IfErr result (ArePutUpTo live.now (S.state store.old) [] (Read item) (K.state out.old) (K.state out.new)) }
    ensures in_step { (asked : Bool) (contents : Contents) → InStep asked live.now contents (S.state store.old) → InStep asked live.now contents (S.state store.new) }
    ensures change { Looks (S.state store.old) (S.state store.new) }
    ensures later { (S.state store.old).faults ≤ (S.state store.new).faults }
    ensures sink_later { (K.state out.old).faults ≤ (K.state out.new).faults }
    ensures seen { OnOk result (InSight live.now (S.seen store.old) (S.state store.old).reads → InSight live.now (S.seen store.new) (S.state store.new).reads) }
    ensures fault { IfErr result (IsServeFault (S.refuses × ¬ InSightFor live.now (Read item ∷ []) (S.seen store.old) (S.state store.old).reads)
        (S.state store.old) (S.state store.new) (K.state out.old) (K.state out.new)) }
{
    live.marks_follow_steps();
    let mut bytes = [0; 4096];
    live.read(store, item, &mut bytes)?;
    let digest = digest_of(&bytes);
    put_reply(out, &live.job().input().items()[item.0 as usize], &digest)?;
    Ok(())
}

// Carries out an order.
fn carry_out<'a, K: Sink, S: Store>(
    live: Live<'a>,
    store: &mut S,
    out: &mut K,
    order: Order,
) -> Result<Live<'a>, ServeFault>
    requires order { IsOrder live.task.input order }
    requires asked { AreAsked S.asked live.task }
    requires none { flights (S.state store.old) ≡ [] }
    ensures task { IfOk result (λ after. after.task ≡ live.entry.task) }
    ensures left { IfOk result (λ after. after.left ≡ live.entry.left - steps_of order) }
    ensures served { OnOk result (ArePut live.entry (S.state store.old) (order ∷ []) (K.state out.old) (K.state out.new)) }
    ensures rest { IfOk result (λ after. actions_left after ≡ drop (steps_of order) (actions_left live.entry)) }
    ensures made { OnOk result (AreMade (take (steps_of order) (actions_left live.entry)) (S.state store.old) (S.state store.new)) }
    ensures put { IfErr result (ArePutUpTo live.entry (S.state store.old) [] order (K.state out.old) (K.state out.new)) }
    ensures part { IfErr result (AreMadeUpTo [] (take (steps_of order) (actions_left live.entry)) (S.state store.old) (S.state store.new)) }
    ensures in_step { IfOk result (λ after. (asked : Bool) (contents : Contents) → InStep asked live.entry contents (S.state store.old) → InStep asked after contents (S.state store.new)) }
    ensures any_moment { (asked : Bool) (contents : Contents) → InStep asked live.entry contents (S.state store.old) →
        LeavesOnly (IsSound asked live.entry.task.input live.entry.task.plan live.entry.task.digest contents) (S.state store.old) (S.state store.new) }
    ensures landed { OnOk result (flights (S.state store.new) ≡ []) }
    ensures later { (S.state store.old).faults ≤ (S.state store.new).faults }
    ensures sink_later { (K.state out.old).faults ≤ (K.state out.new).faults }
    ensures seen { IfOk result (λ after. S.refuses → InSight live.entry (S.seen store.old) (S.state store.old).reads → InSight after (S.seen store.new) (S.state store.new).reads) }
    ensures fault { IfErr result (IsServeFault (S.refuses × ¬ InSightFor live.entry (order ∷ []) (S.seen store.old) (S.state store.old).reads) (S.state store.old) (S.state store.new) (K.state out.old) (K.state out.new)) }
{
    match order {
        Order::Read { item } => match reply(&live, store, out, item) {
            Ok(()) => Ok(live),
            Err(fault) => Err(fault),
        },
        Order::Step { count } => match live.advance(store, count) {
            Ok(after) => Ok(after),
            Err(_) => Err(ServeFault::Store),
        },
    }
}

/// Carries out orders, one after the other. The reply to a read is a line, the item's name and the SHA-256 of its bytes in
/// hexadecimal; it is put before the next order is carried out. No memory is taken.
///
/// # Errors
///
/// A fault of the store or of the sink. No further order is carried out, and the session is gone.
pub fn serve<'a, K: Sink, S: Store>(
    live: Live<'a>,
    store: &mut S,
    out: &mut K,
    orders: &[Order],
) -> Result<Live<'a>, ServeFault>
    requires orders { All (IsOrder live.task.input) orders.now }
    requires asked { AreAsked S.asked live.task }
    requires none { flights (S.state store.old) ≡ [] }
    ensures task { IfOk result (λ after. after.task ≡ live.entry.task) }
    ensures left { IfOk result (λ after. after.left ≡ live.entry.left - all_steps orders.now) }
    ensures served { OnOk result (ArePut live.entry (S.state store.old) orders.now (K.state out.old) (K.state out.new)) }
    ensures made { OnOk result (AreMade (take (all_steps orders.now) (actions_left live.entry)) (S.state store.old) (S.state store.new)) }
    ensures cut_off { IfErr result (AreCutOff live.entry (S.state store.old) (S.state store.new) orders.now (K.state out.old) (K.state out.new)) }
    ensures in_step { IfOk result (λ after. (asked : Bool) (contents : Contents) → InStep asked live.entry contents (S.state store.old) → InStep asked after contents (S.state store.new)) }
    ensures any_moment { (asked : Bool) (contents : Contents) → InStep asked live.entry contents (S.state store.old) →
        LeavesOnly (IsSound asked live.entry.task.input live.entry.task.plan live.entry.task.digest contents) (S.state store.old) (S.state store.new) }
    ensures landed { OnOk result (flights (S.state store.new) ≡ []) }
    ensures later { (S.state store.old).faults ≤ (S.state store.new).faults }
    ensures sink_later { (K.state out.old).faults ≤ (K.state out.new).faults }
    ensures fault { IfErr result (IsServeFault (S.refuses × ¬ InSightFor live.entry orders.now (S.seen store.old) (S.state store.old).reads) (S.state store.old) (S.state store.new) (K.state out.old) (K.state out.new)) }
{
    let mut after = live;
    for order in orders {
        after.marks_follow_steps();
        after = carry_out(after, store, out, *order)?;
    }
    Ok(after)
}
