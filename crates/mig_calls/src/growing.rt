//! Lists that grow within the room that was taken for them.
ghost use Rattle.std.specs.Prelude.{◌≡◌, ◌<◌, ◌++◌, ◌∷◌, [], vec_len, vec_capacity};

/// Puts a value into a list with room.
pub fn push<T: Drop>(list: &mut Vec<T>, value: T)
    requires { vec_len list.old < vec_capacity list.old }
    ensures { list.new.items ≡ list.old.items ++ value ∷ [] }
{
    match list.push(value) {
        Ok(()) => {}
        Err(_) => {}
    }
}
