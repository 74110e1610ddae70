//! `audit`: says of each item whether it is where a layout lists it.
ghost use Rattle.std.specs.Prelude.{◌≡◌, ◌+◌, ◌<◌, ◌≤◌, IfErr, IfOk, codes, if◌then◌else◌, length};
ghost use Rattle.mig_base.specs.declared.limits.TheConstants.{MAX_ITEMS};
ghost use Rattle.mig_base.specs.Stores.{Looks};
ghost use Rattle.mig_top.specs.audit.Sights.{AuditStops, HasPutSight, HavePutSights, SightStops};
ghost use Rattle.mig_top.specs.Calls.{call, world};
ghost use Rattle.mig_top.specs.Ends.{FormFinishes};
ghost use Rattle.mig_words.specs.Puts.{Puts};
ghost use Rattle.mig_top.specs.audit.Sights.{sight_line};
ghost use Rattle.mig_words.specs.Words.{Audit};

use crate::layout_reads::{item_count, load_layout};
use mig_base::{Input, ItemId};
use mig_io::{Folder, Sink, SinkFailed};
use mig_mover::{Sight, sight};
use mig_store::{Store, StoreFailed};
use mig_words::TextPart::{Hex, Number, Text};
use mig_words::{CommandError, put_parts, show_parts};
use std::alloc::Global;

/// Why an audit isn't done.
#[derive(Clone, Copy, Debug, PartialEq, Eq)]
pub enum AuditStop {
    /// The sink failed.
    Sink,
    /// The store failed.
    Store,
}

impl From<SinkFailed> for AuditStop {
    ghost use Rattle.std.specs.Prelude.{◌≡◌};
    ghost use Rattle.mig_top.specs.declared.audit_command.AuditStop.TheVariants as stop;

    ghost from_gives = { λ _ e. e ≡ stop.Sink };

    fn from(_: SinkFailed) -> Self {
        AuditStop::Sink
    }
}

impl From<StoreFailed> for AuditStop {
    ghost use Rattle.std.specs.Prelude.{◌≡◌};
    ghost use Rattle.mig_top.specs.declared.audit_command.AuditStop.TheVariants as stop;

    ghost from_gives = { λ _ e. e ≡ stop.Store };

    fn from(_: StoreFailed) -> Self {
        AuditStop::Store
    }
}

/// What a line says of its item.
fn sight_word(named: bool) -> &'static [u8]
    ensures { result.now ≡ (if named then codes " here " else codes " lost ") }
{
    if named { b" here " } else { b" lost " }
}

/// Puts the line of an item.
fn put_line<'a, K: Sink>(
    out: &mut K,
    input: &'a Input,
    item: ItemId,
    sight: &'a Sight,
) -> Result<(), SinkFailed>
    requires { item.0 < length input.now.items }
    ensures { Puts (sight_line input.now item.0 sight.now) (K.state out.old) (K.state out.new) result }
{
    input.keeps_rules();
    let place = item.0 as usize;
    let spot = input.now()[place];
    put_parts(
        out,
        &[
            Text(input.items()[place].bytes()),
            Text(b" "),
            Text(input.disks()[spot.disk.0 as usize].name.bytes()),
            Text(b" "),
            Number(spot.slot),
            Text(sight_word(sight.named)),
            Hex(&sight.digest),
            Text(b"\n"),
        ],
    )
}

/// Looks at an item's slot, puts the item's line, and answers whether the slot names the item.
fn put_sight<K: Sink, S: Store>(
    out: &mut K,
    store: &mut S,
    input: &Input,
    item: ItemId,
) -> Result<bool, AuditStop>
    requires { item.0 < length input.now.items }
    ensures put { IfOk result (HasPutSight input.now (S.state store.old) item.0 (K.state out.old) (K.state out.new)) }
    ensures stopped { IfErr result (SightStops input.now (S.state store.old) (S.state store.new) item.0 (K.state out.old) (K.state out.new)) }
    ensures looks { Looks (S.state store.old) (S.state store.new) }
    ensures later { (K.state out.old).faults ≤ (K.state out.new).faults }
    ensures store_later { (S.state store.old).faults ≤ (S.state store.new).faults }
{
    let seen = sight(input, item, store)?;
    put_line(out, input, item, &seen)?;
    Ok(seen.named)
}

/// One more, where an item is named.
fn count_named(here: u32, named: bool) -> u32
    requires { here < MAX_ITEMS }
    ensures { result ≡ here + (if named then 1 else 0) }
{
    if named { here + 1 } else { here }
}

/// Puts the line of each item, in order, and answers how many are named.
fn put_sights<K: Sink, S: Store>(
    out: &mut K,
    store: &mut S,
    input: &Input,
) -> Result<u32, AuditStop>
    ensures put { IfOk result (HavePutSights input.now (S.state store.old) (length input.now.items) (K.state out.old) (K.state out.new)) }
    ensures stopped { IfErr result (AuditStops input.now (S.state store.old) (S.state store.new) (K.state out.old) (K.state out.new)) }
    ensures looks { Looks (S.state store.old) (S.state store.new) }
    ensures later { (K.state out.old).faults ≤ (K.state out.new).faults }
    ensures store_later { (S.state store.old).faults ≤ (S.state store.new).faults }
{
    input.keeps_rules();
    let mut here = 0;
    for item in 0..item_count(input) {
        here = count_named(here, put_sight(out, store, input, ItemId(item))?);
    }
    Ok(here)
}

/// `audit`, with its text, which is put item by item. Once the files are read it takes no memory.
pub fn run_audit<F: Folder, K: Sink, S: Store>(
    alloc: Global,
    folder: &mut F,
    out: &mut K,
    store: &mut S,
    disks: &str,
    now: &str,
) -> Result<u8, CommandError>
    ensures { FormFinishes (call S.refuses (world (F.state folder.old) (K.state out.old) (S.state store.old)) (world (F.state folder.new) (K.state out.new) (S.state store.new))) (Audit disks.now now.now) result }
{
    let input = load_layout(alloc, folder, disks, now)?;
    match put_sights(out, store, &input) {
        Ok(here) => Ok(show_parts(
            out,
            &[
                Number(here),
                Text(b" here, "),
                Number(item_count(&input) - here),
                Text(b" lost\n"),
            ],
        )),
        Err(AuditStop::Sink) => Ok(6),
        Err(AuditStop::Store) => Err(CommandError::StoreFault),
    }
}
