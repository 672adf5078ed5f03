//! Whether what is put has a record: each count and each length fits its field.
ghost use Rattle.std.specs.Prelude.{◌≡◌, true};
ghost use Rattle.std.specs.List.{AllByRecursion};
ghost use Rattle.merge_record.specs.Versions.{IsShortBody};

use merge_conflict::ConflictRow;
use merge_record::numbers_ascend;
use merge_table::Edit;
use merge_types::Value;
use merge_units::{Body, Cell, PublisherRow, SubscriberRow, Version};

/// What may be too long for its record.
pub(crate) trait Storable {
    ghost use Rattle.std.specs.Prelude.{◌≡◌, true};

    /// Each count and each length fits its field.
    ghost IsShort: { Self → Type 0 };

    fn is_short(&self) -> bool
        ensures { result ≡ true → IsShort self.now };
}

/// Whether each of these has a record.
pub(crate) fn are_short<T: Storable>(items: &[T]) -> bool
    ensures { result ≡ true → AllByRecursion T.IsShort items.now }
{
    for item in items {
        if !item.is_short() {
            return false;
        }
    }
    true
}

impl Storable for Value {
    ghost use Rattle.merge_record.specs.Versions.{IsShortValue};

    ghost IsShort = { IsShortValue };

    fn is_short(&self) -> bool {
        match self {
            Value::Text(words) => words.len() < 0x1_0000,
            Value::Bytes(octets) => octets.len() < 0x1_0000,
            _ => self.is_proper(),
        }
    }
}

impl Storable for Cell {
    ghost use Rattle.merge_record.specs.Versions.{IsShortCell};

    ghost IsShort = { IsShortCell };

    fn is_short(&self) -> bool {
        self.values.len() < 256 && are_short(self.values.as_slice())
    }
}

fn is_short_body(body: &Body) -> bool
    ensures { result ≡ true → IsShortBody body.now }
{
    match body {
        Body::Live(cells) => cells.len() < 256 && are_short(cells.as_slice()),
        Body::Dead(_) => true,
    }
}

impl Storable for Version {
    ghost use Rattle.merge_record.specs.Versions.{IsShortVersion};

    ghost IsShort = { IsShortVersion };

    fn is_short(&self) -> bool {
        self.lineage.dots().len() < 256 && is_short_body(&self.body)
    }
}

impl Storable for PublisherRow {
    ghost use Rattle.merge_record.specs.Rows.{IsShortPublisherRow};

    ghost IsShort = { IsShortPublisherRow };

    fn is_short(&self) -> bool {
        self.version.is_short()
    }
}

impl Storable for SubscriberRow {
    ghost use Rattle.merge_record.specs.Rows.{IsShortSubscriberRow};

    ghost IsShort = { IsShortSubscriberRow };

    fn is_short(&self) -> bool {
        self.version.is_short() && numbers_ascend(self.generations.as_slice())
    }
}

impl Storable for ConflictRow {
    ghost use Rattle.merge_keeper.specs.Edits.{IsShortLoser};

    ghost IsShort = { IsShortLoser };

    fn is_short(&self) -> bool {
        self.losing.is_short()
    }
}

impl<K, V: Storable> Storable for Edit<K, V> {
    ghost use Rattle.merge_keeper.specs.Edits.{IsShortEdit};

    ghost IsShort = { IsShortEdit V.IsShort };

    fn is_short(&self) -> bool {
        match self {
            Edit::Put(_, value) => value.is_short(),
            Edit::Take(_) => true,
        }
    }
}
