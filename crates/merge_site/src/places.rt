//! The numbers under which records stand: those of the types of keys fit the fields of records.
ghost use Rattle.merge_keeper.specs.Encoded.{AllEditKeys};
ghost use Rattle.merge_table.specs.Edits.{key_of};

use merge_gens::RowSite;
use merge_record::Field;
use merge_table::Edit;
use merge_types::RowKey;

/// What records stand under.
pub(crate) trait Place: Field {
    /// That the numbers of a place fit their fields. It is a fact for proofs, and does nothing.
    fn fits(&self)
        ensures { Self.IsSpelled self.now };
}

impl Place for RowKey {
    fn fits(&self) {
        let _article = self.article;
        let _row = self.row.0;
    }
}

impl Place for RowSite {
    fn fits(&self) {
        self.key.fits();
        let _site = self.site;
    }
}

impl Place for u64 {
    fn fits(&self) {
        let _number = *self;
    }
}

impl Place for u16 {
    fn fits(&self) {
        let _number = *self;
    }
}

impl Place for u8 {
    fn fits(&self) {
        let _number = *self;
    }
}

// That the place of a change fits its fields.
fn fits_place<K: Place, V>(edit: &Edit<K, V>)
    ensures { K.IsSpelled (key_of edit.now) }
{
    match edit {
        Edit::Put(key, _) => key.fits(),
        Edit::Take(key) => key.fits(),
    }
}

/// That the places of all changes fit their fields. It is a fact for proofs, and does nothing.
pub(crate) fn fit_places<K: Place, V>(edits: &[Edit<K, V>])
    ensures { AllEditKeys K.IsSpelled edits.now }
{
    for edit in edits {
        fits_place(edit);
    }
}
