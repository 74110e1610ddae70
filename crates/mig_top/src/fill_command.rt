//! `fill`: writes made items to where a layout lists items.
ghost use Rattle.mig_top.specs.Calls.{call, world};
ghost use Rattle.mig_top.specs.Ends.{FormFinishes};
ghost use Rattle.mig_words.specs.Words.{Fill};

use crate::layout_reads::{item_count, load_layout};
use mig_io::{Folder, Sink};
use mig_mover::fill;
use mig_store::Store;
use mig_words::TextPart::{Number, Text};
use mig_words::{CommandError, fault_ending, show_parts};
use std::alloc::Global;

/// `fill`, with its text. Once the files are read it takes no memory.
pub fn run_fill<F: Folder, K: Sink, S: Store>(
    alloc: Global,
    folder: &mut F,
    out: &mut K,
    store: &mut S,
    disks: &str,
    now: &str,
) -> Result<u8, CommandError>
    ensures { FormFinishes (call S.refuses (world (F.state folder.old) (K.state out.old) (S.state store.old)) (world (F.state folder.new) (K.state out.new) (S.state store.new))) (Fill disks.now now.now) result }
{
    let input = load_layout(alloc, folder, disks, now)?;
    match fill(&input, store) {
        Ok(()) => Ok(show_parts(
            out,
            &[Text(b"filled "), Number(item_count(&input)), Text(b"\n")],
        )),
        Err(fault) => Err(fault_ending(&input, fault)),
    }
}
