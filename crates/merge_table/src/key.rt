//! The keys of tables.
ghost use Rattle.std.specs.Prelude.{◌≡◌};
ghost use Rattle.std.specs.declared.cmp.Ordering.TheVariants.{Equal};
ghost use Rattle.std.proofs.Common.{rules};
ghost use Rattle.std.proofs.lemmas.Map.Lookups.{exact_unsigned, exact_pairs};

use merge_types::{Exact, Listing, RowKey, SiteId, Value, Words};

/// A key of which equal values are one, and clones too.
///
/// A slot keeps the key that it was made for. By this law that is the key that is put there later.
pub trait TableKey: Ord + Clone + Drop {
    ghost equal_is_same: { (x y : Self) → Self.cmp x y ≡ Equal → x ≡ y };

    ghost clone_is_same: { (old new : Self) → Self.is_clone old new → new ≡ old };
}

impl TableKey for u8 {
    ghost equal_is_same = { exact_unsigned };

    ghost clone_is_same = { Prim.search rules };
}

impl TableKey for u16 {
    ghost equal_is_same = { exact_unsigned };

    ghost clone_is_same = { Prim.search rules };
}

impl TableKey for u32 {
    ghost equal_is_same = { exact_unsigned };

    ghost clone_is_same = { Prim.search rules };
}

impl TableKey for u64 {
    ghost equal_is_same = { exact_unsigned };

    ghost clone_is_same = { Prim.search rules };
}

impl TableKey for u128 {
    ghost equal_is_same = { exact_unsigned };

    ghost clone_is_same = { Prim.search rules };
}

impl<A: TableKey, B: TableKey> TableKey for (A, B) {
    ghost equal_is_same = { exact_pairs A.cmp B.cmp A.equal_is_same B.equal_is_same };

    ghost clone_is_same = { Prim.search rules };
}

impl TableKey for RowKey {
    ghost use Rattle.merge_types.specs.RowKeys.{key_exact};

    ghost equal_is_same = { key_exact };

    ghost clone_is_same = { Prim.search rules };
}

impl TableKey for SiteId {
    ghost use Rattle.merge_types.specs.Orders.{site_exact};

    ghost equal_is_same = { site_exact };

    ghost clone_is_same = { Prim.search rules };
}

impl TableKey for Words {
    ghost use Rattle.std.proofs.lemmas.Map.Lookups.{exact_bytes};

    ghost equal_is_same = { exact_bytes };

    ghost clone_is_same = { λ old new same. same };
}

impl<T: TableKey + Exact> TableKey for Listing<T> {
    ghost use Rattle.merge_types.specs.Orders.{exact_lists};

    ghost equal_is_same = { exact_lists T.cmp T.equal_is_same };

    ghost clone_is_same = { λ old new same. same };
}

impl TableKey for Value {
    ghost use Rattle.merge_types.specs.Orders.{value_exact};

    ghost equal_is_same = { value_exact };

    ghost clone_is_same = { λ old new same. same };
}
