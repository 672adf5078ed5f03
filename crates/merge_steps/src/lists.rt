//! Lists that are built one by one.
ghost use Rattle.std.specs.Prelude.{◌≡◌, ◌++◌, OnErr, OnOk};
ghost use Rattle.std.specs.Option.{option_to_list};

use merge_types::{Listing, NoMemory};

/// Adds what there is behind a list. After a refusal the list is as before.
pub fn push_some<T: Drop>(items: &mut Listing<T>, item: Option<T>) -> Result<(), NoMemory>
    ensures ok { OnOk result (items.new ≡ items.old ++ option_to_list item) }
    ensures err { OnErr result (items.new ≡ items.old) }
{
    match item {
        Some(item) => items.push(item),
        None => Ok(()),
    }
}
