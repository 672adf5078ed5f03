//! Laws on stores that load.
ghost use Rattle.merge_laws.specs.Laws.{OfEveryValidRun};
ghost use Rattle.merge_stored.specs.Loading.{SubscribersLoad, SubscriberStoresLoad};
ghost use Rattle.merge_stored.specs.PublisherLoading.{PublisherLoads, PublisherStoreLoads};
ghost use Rattle.merge_stored.specs.TypedRuns.{OfEveryValidTypedRun, RulesHold, StoresLoad};

use merge_keeper::{publisher_stored_tables_load, stored_tables_load};

/// The tables of each subscriber keep the rules of a start, so the store that is written of them loads
/// and gives these tables.
pub fn subscribers_load()
    ensures rules { OfEveryValidRun SubscribersLoad }
    ensures loads { OfEveryValidRun SubscriberStoresLoad }
{
    stored_tables_load();
}

/// The tables of the publisher keep the rules of a start, so the store that is written of them loads
/// and gives these tables.
pub fn publisher_loads()
    ensures rules { OfEveryValidRun PublisherLoads }
    ensures loads { OfEveryValidRun PublisherStoreLoads }
{
    publisher_stored_tables_load();
}

/// Where values and moments that come from outside are those of their types, so are those in the
/// tables, and the stores of all sites load.
pub fn typed_runs_load()
    ensures rules { OfEveryValidTypedRun RulesHold }
    ensures loads { OfEveryValidTypedRun StoresLoad }
{
    publisher_stored_tables_load();
    stored_tables_load();
}
