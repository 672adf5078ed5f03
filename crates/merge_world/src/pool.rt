//! The messages of a world, by their numbers.
ghost use Rattle.std.specs.Prelude.{◌≡◌, ◌+◌, ◌++◌, ◌∷◌, ◌<◌, ◌≤◌, [], vec_len, vec_capacity};
ghost use Rattle.std.specs.Option.{option_copied};
ghost use Rattle.merge_model.specs.World.Parts.{letter_in_pool};

use merge_model::Letter;

/// The message with a number.
pub(crate) fn letter_at(pool: &[Letter], number: u64) -> Option<&Letter>
    ensures { option_copied result ≡ letter_in_pool pool.now number }
{
    if number == 0 {
        return None;
    }
    if number > pool.len() as u64 {
        return None;
    }
    pool.get((number - 1) as usize)
}

/// One more, for which there is room.
pub(crate) fn put<T: Drop>(list: &mut Vec<T>, item: T)
    requires { vec_len list.old < vec_capacity list.old }
    ensures items { list.new.items ≡ list.old.items ++ item ∷ [] }
    ensures len { vec_len list.new ≡ vec_len list.old + 1 }
    ensures capacity { vec_capacity list.old ≤ vec_capacity list.new }
{
    if let Err(_) = list.push(item) {}
}
