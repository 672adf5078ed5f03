//! What holds of every conflict table. These functions do nothing: their contracts are the laws.
ghost use Rattle.merge_conflict.specs.Kinds.{KindIsRead};
ghost use Rattle.merge_conflict.specs.Rising.{GoOnAbove};

/// New rows may be added whose numbers rise from the greatest that was given on.
pub fn numbering_law()
    ensures { GoOnAbove }
{}

/// A kind is read from its number.
pub fn kind_law()
    ensures { KindIsRead }
{}
