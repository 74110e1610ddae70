//! Saving a file by calls in memory, one of which fails.

use mig_save::{MemSave, SaveCalls, Unsaved, save_over};
use std::alloc::Global;
use std::panic::Expect;

const UNCHANGED: &str = "nothing was changed";

const OLD: &str = "the old file stands";

const NEW: &str = "the new file stands";

/// What a save of three bytes answers.
fn answer_of<C: SaveCalls>(calls: &mut C) -> &'static str {
    match save_over(calls, b"new") {
        Ok(_) => "saved",
        Err(Unsaved::Unchanged(_)) => UNCHANGED,
        Err(Unsaved::OldStands(_)) => OLD,
        Err(Unsaved::NewStands(_)) => NEW,
        Err(Unsaved::InPart(_)) => "a part may have been written",
    }
}

/// Whether these bytes stand then, or no file does.
fn stands(alloc: Global, calls: &MemSave, wanted: Option<&[u8]>) -> bool {
    match calls.stands(alloc) {
        Ok(Some(bytes)) => wanted == Some(bytes.as_slice()),
        Ok(None) => wanted.is_none(),
        Err(_) => false,
    }
}

#[test]
fn a_file_in_memory_is_the_old_or_the_new_one(rt: HostRuntime) {
    // the calls: look, make, set_mode, node, three writes, sync, check_made, rename, sync_folder
    for failing in 1..13u64 {
        let old = Vec::from_slice(rt.alloc(), b"old").expect(&rt, "ample memory");
        let mut calls = MemSave::new(rt.alloc(), Some(old), failing);
        let (wanted, bytes) = match failing {
            1 => (UNCHANGED, b"old"),
            2..=10 => (OLD, b"old"),
            11 => (NEW, b"new"),
            _ => ("saved", b"new"),
        };
        assert_eq!(rt; answer_of(&mut calls), wanted);
        assert!(rt; stands(rt.alloc(), &calls, Some(bytes)));
    }
}

#[test]
fn a_new_file_in_memory_is_there_whole_or_not(rt: HostRuntime) {
    // the same calls, without set_mode
    for failing in 1..12u64 {
        let mut calls = MemSave::new(rt.alloc(), None, failing);
        let wanted = match failing {
            1..=9 => UNCHANGED,
            10 => NEW,
            _ => "saved",
        };
        assert_eq!(rt; answer_of(&mut calls), wanted);
        assert!(rt;
            stands(
                rt.alloc(),
                &calls,
                (failing > 9).then_some(b"new".as_slice())
            )
        );
    }
}

#[test]
fn a_pipe_in_memory_is_written_in_place(rt: HostRuntime) {
    // the calls: look, save_in_place
    for (failing, wanted) in [
        (1, UNCHANGED),
        (2, "a part may have been written"),
        (3, "saved"),
    ] {
        assert_eq!(rt; answer_of(&mut MemSave::pipe(rt.alloc(), failing)), wanted);
    }
}
