//! Laws on what every call keeps.
ghost use Rattle.merge_stored.specs.Keeping.{AfterAnyCalls, NewPublishersKeep, PublisherKeeps, TablesLoad};

use merge_keeper::publisher_stored_tables_load;

/// Whatever comes to a publisher, in whatever order and whoever sent the messages: tables that keep the
/// rules of a start still keep them, so the store that is written of them loads and gives these tables.
/// Those of a new publisher keep them.
pub fn any_calls_keep_rules()
    ensures begins { NewPublishersKeep }
    ensures rules { AfterAnyCalls PublisherKeeps }
    ensures loads { AfterAnyCalls TablesLoad }
{
    publisher_stored_tables_load();
}
