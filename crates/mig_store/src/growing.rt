//! Lists that grow within the room that was taken for them.
ghost use Rattle.std.specs.Prelude.{◌≡◌, ◌≤◌, ◌+◌, ◌++◌, length, vec_len, vec_capacity};

/// Puts values at the end of a list with room.
pub fn append<T: Copy>(list: &mut Vec<T>, these: &[T])
    requires { vec_len list.old + length these.now ≤ vec_capacity list.old }
    ensures items { list.new.items ≡ list.old.items ++ these.now }
    ensures capacity { vec_capacity list.old ≤ vec_capacity list.new }
{
    match list.extend_from_slice(these) {
        Ok(()) => {}
        Err(_) => {}
    }
}
