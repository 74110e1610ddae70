//! The text of a script.
ghost use Rattle.std.specs.Prelude.{◌≡◌, ◌≢◌, ◌+◌, ◌<◌, ◌≤◌, ◌∷◌, ℕ, List, [], IfErr, IfOk, MatchOption, length};
ghost use Rattle.std.specs.Fmt.{decimal};
ghost use Rattle.mig_base.specs.Texts.{item_name};
ghost use Rattle.mig_live.specs.Orders.{IsOrder, order_line, order_words};
ghost use Rattle.mig_live.specs.Scripts.{IsScriptError, IsStopAt, ScriptText, WereRead};
ghost use Rattle.mig_live.specs.declared.orders.Order.{Order};
ghost use Rattle.mig_live.specs.declared.scripts.ScriptError.TheVariants as script_error;

use crate::limits::{MAX_ORDERS, MAX_STEPS};
use crate::orders::Order;
use mig_base::{Input, ItemId, MAX_FILE_BYTES};
use mig_text::{Finder, Parts, last_number};
use std::alloc::{AllocError, Global};
use std::marker::Model;
use thiserror::Error;

/// Why a script isn't read.
#[derive(Clone, Copy, Debug, PartialEq, Eq, Error)]
pub enum ScriptError {
    /// The text is no script. The number is that of the first line that doesn't fit, counted from 1, or that after the last
    /// line where its end is missing; and 0 where the text is too long.
    #[error("a line of the script doesn't fit")]
    Line { number: u32 },
    /// Memory was refused.
    #[error("there was no memory to read the script")]
    Memory,
}

impl From<AllocError> for ScriptError {
    ghost use Rattle.std.specs.Prelude.{◌≡◌};
    ghost use Rattle.mig_live.specs.declared.scripts.ScriptError.TheVariants as script_error;

    ghost from_gives = { λ _ e. e ≡ script_error.Memory };

    fn from(_: AllocError) -> Self {
        ScriptError::Memory
    }
}

/// Orders, one after the other.
#[derive(Debug, Drop)]
pub struct Script {
    orders: Vec<Order>,
}

impl Model for Script {
    ghost use Rattle.std.specs.Prelude.{List};
    ghost use Rattle.mig_live.specs.declared.orders.Order.{Order};

    ghost Value = { List Order };

    ghost view = { λ s. s.orders.items };
}

impl Script {
    /// The orders.
    pub fn orders(&self) -> &[Order]
        ensures { result.now ≡ self.now }
    {
        self.orders.as_slice()
    }
}

/// Reads the text of a script: at most 65,536 lines, each `read ITEM` with an item of the input, or `step N` with N from 1 to
/// 1,000,000.
///
/// # Errors
///
/// `Line` comes exactly where the bytes are no such text, with the number of the first line that doesn't fit; with that after
/// the last line where only its end is missing; and with 0 where they are more than 16,777,216. `Memory` is want of memory.
pub fn read_script(alloc: Global, input: &Input, bytes: &[u8]) -> Result<Script, ScriptError>
    ensures orders { IfOk result (λ orders. ScriptText input.now orders bytes.now) }
    ensures line { IfErr result (IsScriptError input.now bytes.now) }
{
    input.keeps_rules();
    if bytes.len() > MAX_FILE_BYTES {
        return Err(ScriptError::Line { number: 0 });
    }
    let finder = Finder::of(alloc, input)?;
    read_orders(alloc, &finder, Parts::of(bytes, b'\n'))
}

// Why a piece after so many orders isn't read: its line is the next one.
fn misfit(before: usize) -> ScriptError
    requires { before ≤ MAX_ORDERS }
    ensures { result ≡ script_error.Line (before + 1) }
{
    ScriptError::Line {
        number: before as u32 + 1,
    }
}

// The orders whose lines these pieces are; the last piece is what stands after the last line.
fn read_orders(
    alloc: Global,
    finder: &Finder<'_>,
    mut parts: Parts<'_>,
) -> Result<Script, ScriptError>
    ensures orders { IfOk result (λ orders. WereRead finder.now parts.entry orders ([] ∷ [])) }
    ensures line { IfErr result (IsStopAt finder.now parts.entry) }
{
    finder.keeps_rules();
    let mut orders = Vec::new(alloc);
    while let Some(piece) = parts.take_part() {
        if piece.is_empty() && parts.is_done() {
            return Ok(Script { orders });
        }
        let Some(order) = fitting(finder, piece, orders.len()) else {
            return Err(misfit(orders.len()));
        };
        if orders.push(order).is_err() {
            return Err(ScriptError::Memory);
        }
    }
    Err(misfit(orders.len()))
}

// The order that a piece spells, where it comes after so many others.
fn fitting(finder: &Finder<'_>, piece: &[u8], before: usize) -> Option<Order>
    ensures { MatchOption result (before < MAX_ORDERS → (order : Order) → IsOrder finder.now order → piece.now ≢ order_line finder.now order)
        (λ order. (before ≢ MAX_ORDERS) × IsOrder finder.now order × (piece.now ≡ order_line finder.now order)) }
{
    if before == MAX_ORDERS {
        return None;
    }
    read_order(finder, piece)
}

// The order that a line spells.
fn read_order(finder: &Finder<'_>, line: &[u8]) -> Option<Order>
    ensures { MatchOption result ((order : Order) → IsOrder finder.now order → line.now ≢ order_line finder.now order)
        (λ order. IsOrder finder.now order × (line.now ≡ order_line finder.now order)) }
{
    finder.keeps_rules();
    order_of(finder, Parts::of(line, b' '))
}

// The same of the line's words.
fn order_of(finder: &Finder<'_>, mut parts: Parts<'_>) -> Option<Order>
    ensures { MatchOption result ((order : Order) → IsOrder finder.now order → parts.entry ≢ order_words finder.now order)
        (λ order. IsOrder finder.now order × (parts.entry ≡ order_words finder.now order)) }
{
    let word = parts.take_part()?;
    if word == b"read".as_slice() {
        let item = item_of(finder, parts)?;
        return Some(Order::Read { item });
    }
    if word == b"step".as_slice() {
        let count = count_of(parts)?;
        return Some(Order::Step { count });
    }
    None
}

// The item whose name is the last word.
fn item_of(finder: &Finder<'_>, mut parts: Parts<'_>) -> Option<ItemId>
    ensures { MatchOption result ((item : ℕ) → item < length finder.now.items → parts.entry ≢ item_name finder.now item ∷ [])
        (λ item. (item.0 < length finder.now.items) × (parts.entry ≡ item_name finder.now item.0 ∷ [])) }
{
    let item = finder.item(parts.take_part()?)?;
    if parts.is_done() { Some(item) } else { None }
}

// The number of steps that is the last word.
fn count_of(parts: Parts<'_>) -> Option<u32>
    ensures { MatchOption result ((n : ℕ) → 1 ≤ n → n ≤ MAX_STEPS → parts.entry ≢ decimal n ∷ [])
        (λ n. (1 ≤ n) × (n ≤ MAX_STEPS) × (parts.entry ≡ decimal n ∷ [])) }
{
    let count = last_number(parts, MAX_STEPS)?;
    if count == 0 { None } else { Some(count) }
}
