//! What a call hands back in the caller's slices.
ghost use Rattle.std.specs.Prelude.{◌≡◌, ◌≤◌, ◌↔◌, IsTrue, length};
ghost use Rattle.mig_c.specs.Slices.{Answers, HoldsBytes, TextFits, slice};

/// The status for a slice that is too short for a text of status 0.
const TOO_SHORT: u32 = 100;

/// Puts as much of a text into a slice as fits, and gives its length. Answers whether all of it fits.
fn hand(text: &[u8], into: &mut [u8], len: &mut usize) -> bool
    ensures holds { HoldsBytes text.now (slice into.old into.new len.new) }
    ensures fits { IsTrue result ↔ length text.now ≤ length into.old }
{
    let part = text.len().min(into.len());
    into[..part].copy_from_slice(&text[..part]);
    *len = text.len();
    part == text.len()
}

/// The number of a status, or that a slice is too short in place of 0.
fn answer(status: u8, all_fit: bool) -> u32
    ensures { Answers status (IsTrue all_fit) result }
{
    if status == 0 && !all_fit {
        return TOO_SHORT;
    }
    u32::from(status)
}

/// Hands back the plan that was made, and what was told of it.
pub fn hand_both(
    status: u8,
    made: &[u8],
    told: &[u8],
    plan: &mut [u8],
    plan_len: &mut usize,
    text: &mut [u8],
    text_len: &mut usize,
) -> u32
    ensures in_plan { HoldsBytes made.now (slice plan.old plan.new plan_len.new) }
    ensures in_text { HoldsBytes told.now (slice text.old text.new text_len.new) }
    ensures answers { Answers status (TextFits made.now (slice plan.old plan.new plan_len.new) × TextFits told.now (slice text.old text.new text_len.new)) result }
{
    let plan_fits = hand(made, plan, plan_len);
    let text_fits = hand(told, text, text_len);
    answer(status, plan_fits && text_fits)
}

/// Hands back what was told.
pub fn hand_text(status: u8, told: &[u8], text: &mut [u8], text_len: &mut usize) -> u32
    ensures in_text { HoldsBytes told.now (slice text.old text.new text_len.new) }
    ensures answers { Answers status (TextFits told.now (slice text.old text.new text_len.new)) result }
{
    let fits = hand(told, text, text_len);
    answer(status, fits)
}
