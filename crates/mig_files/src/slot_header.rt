//! The first bytes of a slot, which say which item it holds.
ghost use Rattle.std.specs.Prelude.{◌≡◌, ◌≢◌, ◌≤◌, Some, ℕ, List, IfSome, IfNone, MatchBool, length, slice_range};
ghost use Rattle.mig_base.specs.Naming.{IsName};
ghost use Rattle.mig_base.specs.Slots.{header_of};

use mig_base::Name;
use mig_store::header;

/// How many bytes of a slot say which item it holds.
pub const HEADER: usize = 34;

/// Whether these are the first bytes of a slot that holds the item.
pub fn is_header(first: &[u8; 34], item: &Name) -> bool
    ensures same { MatchBool result (first.now ≡ header_of item.now) (first.now ≢ header_of item.now) }
    ensures name { IsName item.now }
    ensures len { length first.now ≡ 34 }
{
    item.keeps_rules();
    *first == header(item)
}

/// The name in the first bytes of a slot that holds an item.
fn name_in(first: &[u8; 34]) -> Option<Name>
    ensures { (item : List ℕ) → IsName item → first.now ≡ header_of item → result ≡ Some item }
{
    let count = first[1] as usize;
    if count > 32 {
        return None;
    }
    Name::read(&first[2..2 + count])
}

/// The item that a slot with these first bytes holds.
pub fn item_of(first: &[u8; 34]) -> Option<Name>
    ensures some { IfSome result (λ item. first.now ≡ header_of item) }
    ensures name { IfSome result (λ item. IsName item) }
    ensures none { IfNone result ((item : List ℕ) → IsName item → first.now ≢ header_of item) }
    ensures len { length first.now ≡ 34 }
{
    match name_in(first) {
        Some(item) => {
            if is_header(first, &item) {
                return Some(item);
            }
            None
        }
        None => None,
    }
}

/// The first bytes of a slot.
pub fn first_of(bytes: &[u8]) -> [u8; 34]
    requires { 34 ≤ length bytes.now }
    ensures first { result ≡ slice_range bytes.now 0 34 }
    ensures len { length result ≡ 34 }
{
    let mut first = [0; 34];
    first.copy_from_slice(&bytes[..34]);
    first
}
