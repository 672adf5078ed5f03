//! What holds of every index. These functions do nothing: their contracts are the laws.
ghost use Rattle.merge_join.specs.Laws.{InsertsAddOne, RemovalsTakeOne, OrderTellsAll, ValuesAreFound};

/// An index is a set of entries: one that is put in is there, one that is taken out is not, and
/// each other is as it was. The children of a value are those whose entry is in the set.
pub fn set_laws()
    ensures insert { InsertsAddOne }
    ensures remove { RemovalsTakeOne }
    ensures order { OrderTellsAll }
    ensures found { ValuesAreFound }
{}
