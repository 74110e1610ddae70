//! The calls of a store in memory, and the bytes that they asked to be written.
ghost use Rattle.std.specs.Prelude.{◌≡◌, ◌<◌, ◌≤◌, ◌+◌, ◌++◌, ◌∷◌, [], ℕ, List, All, IfOk, length, count_by, slice_get, slice_range, vec_len, vec_capacity};
ghost use Rattle.mig_store.specs.Asking.{asked_by};
ghost use Rattle.mig_store.specs.Calls.{call_with, calls_of, IsSpan};
ghost use Rattle.mig_store.specs.Ledgers.{is_sync};

use crate::growing::append;
use mig_base::Cell;
use std::alloc::{AllocError, Global};
use std::marker::Model;

/// What a call was, without the bytes that it asked to be written.
#[derive(Clone, Copy)]
pub enum Act {
    /// Bytes were asked to be written; a write that failed left the cell.
    Write { cell: Cell, done: bool },
    /// A copy was asked to begin, and began if it is done.
    Copy { from: Cell, to: Cell, done: bool },
    /// A copy ended.
    Land { from: Cell, to: Cell },
    /// A sync succeeded.
    Sync,
}

/// A part of a list: where it begins, and where it has ended.
#[derive(Clone, Copy)]
pub struct Span {
    pub from: usize,
    pub to: usize,
}

/// A call, with the place of its bytes.
#[derive(Clone, Copy)]
pub struct Note {
    pub act: Act,
    pub span: Span,
}

/// A record of calls, with room for a number of them.
///
/// The bytes of all calls stand in one list, one after the other, which has room for those of each call that is still to come.
#[derive(Drop)]
pub struct CallRecord {
    notes: Vec<Note>,
    bytes: Vec<u8>,
    room: u32,
}

impl Model for CallRecord {
    ghost use Rattle.std.specs.Prelude.{◌≤◌, ◌*◌, length, vec_capacity};
    ghost use Rattle.mig_store.specs.Calls.{Recorded, AreNoted, calls_of};

    ghost Value = { Recorded };

    ghost view = { λ c. record { calls = calls_of c.bytes.items c.notes.items; room = c.room } };

    ghost invariant = { λ c. AreNoted c.notes.items c.bytes.items × (length c.notes.items ≤ c.room) × (c.room ≤ vec_capacity c.notes) × (4096 * c.room ≤ vec_capacity c.bytes) };
}

// Puts bytes at the end of those of all calls, which have room for them, and tells where they stand.
fn keep(list: &mut Vec<u8>, bytes: &[u8]) -> Span
    requires { vec_len list.old + length bytes.now ≤ vec_capacity list.old }
    ensures items { list.new.items ≡ list.old.items ++ bytes.now }
    ensures from { result.from ≡ length list.old.items }
    ensures to { result.to ≡ length list.new.items }
    ensures capacity { vec_capacity list.old ≤ vec_capacity list.new }
{
    let from = list.len();
    append(list, bytes);
    Span {
        from,
        to: list.len(),
    }
}

// Where the bytes stand that the call at this place asked to be written.
fn span_at(notes: &[Note], place: usize) -> Span
    ensures value { (bytes : List ℕ) → slice_range bytes result.from result.to ≡ asked_by (slice_get (calls_of bytes notes.now) place) }
    ensures within { (count : ℕ) → All (λ n. IsSpan count n.span) notes.now → IsSpan count result }
{
    match notes.get(place) {
        Some(
            Note {
                act: Act::Write { .. } | Act::Copy { .. },
                span,
            },
        ) => *span,
        _ => Span { from: 0, to: 0 },
    }
}

// The bytes that stand there.
fn part(bytes: &[u8], span: Span) -> &[u8]
    requires { IsSpan (length bytes.now) span }
    ensures value { result.now ≡ slice_range bytes.now span.from span.to }
    ensures short { length result.now ≤ 4096 }
{
    &bytes[span.from..span.to]
}

impl CallRecord {
    /// No calls, with room for so many. An error is want of memory.
    pub fn new(alloc: Global, room: u32) -> Result<CallRecord, AllocError>
        ensures calls { IfOk result (λ made. made.calls ≡ []) }
        ensures room { IfOk result (λ made. made.room ≡ room) }
    {
        Ok(CallRecord {
            notes: Vec::with_capacity(alloc, room as usize)?,
            bytes: Vec::with_capacity(alloc, room as usize * 4096)?,
            room,
        })
    }

    /// The number of calls.
    pub fn len(&self) -> usize
        ensures { result ≡ length self.now.calls }
    {
        self.notes.len()
    }

    /// The bytes that the call at this place asked to be written.
    pub fn asked(&self, place: usize) -> &[u8]
        ensures value { result.now ≡ asked_by (slice_get self.now.calls place) }
        ensures short { length result.now ≤ 4096 }
    {
        part(&self.bytes, span_at(&self.notes, place))
    }

    /// The number of syncs.
    pub fn syncs(&self) -> u32
        ensures { result ≡ count_by is_sync self.now.calls }
    {
        let _room = self.room;
        let mut syncs = 0;
        for note in &self.notes {
            if let Act::Sync = note.act {
                syncs += 1;
            }
        }
        syncs
    }

    /// Records a call that asks these bytes to be written.
    pub fn note(&mut self, act: &Act, bytes: &[u8])
        requires room { length self.old.calls < self.old.room }
        requires short { length bytes.now ≤ 4096 }
        ensures calls { self.new.calls ≡ self.old.calls ++ call_with act.now bytes.now ∷ [] }
        ensures room { self.new.room ≡ self.old.room }
    {
        let span = keep(&mut self.bytes, bytes);
        append(&mut self.notes, &[Note { act: *act, span }]);
    }

    /// Records a call that asks the bytes to be written that the call at this place asked for. None are copied.
    pub fn note_again(&mut self, act: &Act, place: usize)
        requires { length self.old.calls < self.old.room }
        ensures calls { self.new.calls ≡ self.old.calls ++ call_with act.now (asked_by (slice_get self.old.calls place)) ∷ [] }
        ensures room { self.new.room ≡ self.old.room }
    {
        let span = span_at(&self.notes, place);
        append(&mut self.notes, &[Note { act: *act, span }]);
    }

    /// Forgets all calls.
    pub fn clear(&mut self)
        ensures calls { self.new.calls ≡ [] }
        ensures room { self.new.room ≡ self.old.room }
    {
        self.notes.clear();
        self.bytes.clear();
    }
}
