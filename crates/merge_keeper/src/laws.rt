//! What holds of the records of every site. These functions do nothing: their contracts are the laws.
ghost use Rattle.std.specs.Prelude.{◌≡◌, ◌↔◌, ◌<◌, ◌^◌, ◌∷◌, ℕ, List, Ok, Err};
ghost use Rattle.std.specs.Map.{keys_of};
ghost use Rattle.merge_ident.specs.Holders.{Holder as AnyHolder};
ghost use Rattle.merge_ident.specs.declared.grants.Range.{Range as AnyRange};
ghost use Rattle.merge_schema.specs.declared.publication.Publication.{Publication as AnyPublication};
ghost use Rattle.merge_ports.specs.declared.entry.EntryKey.{EntryKey as AnyKey};
ghost use Rattle.merge_table.specs.Edits.{rows_after_all};
ghost use Rattle.merge_ports.specs.Entries.{entry_cmp, Map};
ghost use Rattle.merge_keeper.specs.declared.stored.PublisherStored.{PublisherStored as Publisher};
ghost use Rattle.merge_keeper.specs.declared.stored.PublisherChanges.{PublisherChanges as PublisherStep};
ghost use Rattle.merge_keeper.specs.declared.stored.SubscriberStored.{SubscriberStored as Subscriber};
ghost use Rattle.merge_keeper.specs.declared.stored.SubscriberChanges.{SubscriberChanges as SubscriberStep};
ghost use Rattle.merge_record.specs.Codec.{AreRecords};
ghost use Rattle.merge_keeper.specs.States.{publisher_state_at, publisher_spelling, IsPublisherState, subscriber_state_at, subscriber_spelling, IsSubscriberState, conflict_at, conflict_spelling, IsConflict};
ghost use Rattle.merge_types.specs.declared.identifiers.SiteId.{SiteId as AnySite};
ghost use Rattle.merge_keeper.specs.Given.{Entry as AnyEntry, IsBeginning, IsMap};
ghost use Rattle.merge_keeper.specs.Orders.{IsPublisherOrdered, IsSubscriberOrdered};
ghost use Rattle.merge_keeper.specs.Start.{loaded_behind, IsFirstBroken};
ghost use Rattle.merge_keeper.specs.PublisherRules.{KeepRules as PublisherKeeps};
ghost use Rattle.merge_keeper.specs.PublisherStart.{loading_of_publisher as publisher_loading, publisher_loaded};
ghost use Rattle.merge_keeper.specs.SubscriberStart.{loading_of_subscriber as subscriber_loading, subscriber_loaded};
ghost use Rattle.merge_keeper.specs.SubscriberRules.{KeepRules};
ghost use Rattle.merge_keeper.specs.Stored.{publisher_records, publisher_after, publisher_edits, subscriber_records, subscriber_after, subscriber_edits, IsPublisherKeyed, FitPublisher, IsSubscriberKeyed, FitSubscriber};

/// Each state and each conflict has one record, each record is of one, and what is written reads back.
pub fn state_records()
    ensures publisher { AreRecords publisher_spelling publisher_state_at IsPublisherState }
    ensures subscriber { AreRecords subscriber_spelling subscriber_state_at IsSubscriberState }
    ensures conflict { AreRecords conflict_spelling conflict_at IsConflict }
{}

/// The edits of a step's commit make the records of what was stored those of what is stored
/// afterwards.
pub fn edits_follow()
    ensures publisher { (c : PublisherStep) (t : Publisher) → IsPublisherKeyed t → FitPublisher t c
        → rows_after_all entry_cmp (publisher_records t) (publisher_edits c t) ≡ publisher_records (publisher_after c t) }
    ensures subscriber { (c : SubscriberStep) (t : Subscriber) → IsSubscriberKeyed t → FitSubscriber c
        → rows_after_all entry_cmp (subscriber_records t) (subscriber_edits c t) ≡ subscriber_records (subscriber_after c t) }
{}

/// Behind the state a start names an entry exactly where it is the first that has no reading, or
/// breaks a rule where the tables hold those before it.
pub fn damage_is_first()
    ensures publisher { (p : AnyPublication) (owns : List (ℕ × AnyRange)) (es : Map) (t : Publisher) (key : AnyKey)
        → (loaded_behind (publisher_loading p owns) t es ≡ Err key) ↔ IsFirstBroken (publisher_loading p owns) t es key }
    ensures subscriber { (p : AnyPublication) (es : Map) (t : Subscriber) (key : AnyKey)
        → (loaded_behind (subscriber_loading p) t es ≡ Err key) ↔ IsFirstBroken (subscriber_loading p) t es key }
{}

/// The store of the publisher whose tables keep the rules loads, and gives these tables.
pub fn publisher_stored_tables_load()
    ensures { (p : AnyPublication) (held : List (ℕ × AnyHolder)) (t : Publisher) → PublisherKeeps p held t
        → publisher_loaded p held (publisher_records t) ≡ Ok t }
{}

/// The store of a subscriber whose tables keep the rules loads, and gives these tables.
pub fn stored_tables_load()
    ensures { (p : AnyPublication) (held : List (ℕ × AnyHolder)) (t : Subscriber) → KeepRules p held t
        → subscriber_loaded p t.site held (subscriber_records t) ≡ Ok t }
{}

/// Whatever loads keeps the rules, so that it loads again from the records that are written of it.
/// The entries are those of a keeper, which ascend by their keys, and held is what a site holds
/// before it received any range.
pub fn loaded_keeps_rules()
    ensures subscriber { (p : AnyPublication) (site : AnySite) (held : List (ℕ × AnyHolder)) (es : Map) (t : Subscriber) → site.0 < 2 ^ 16 → IsMap es → IsBeginning p held
        → subscriber_loaded p site held es ≡ Ok t → KeepRules p held t }
    ensures subscriber_order { (p : AnyPublication) (site : AnySite) (held : List (ℕ × AnyHolder)) (es : Map) (t : Subscriber) → IsMap es → IsBeginning p held
        → subscriber_loaded p site held es ≡ Ok t → IsSubscriberOrdered t }
    ensures subscriber_site { (p : AnyPublication) (site : AnySite) (held : List (ℕ × AnyHolder)) (es : Map) (t : Subscriber) → IsMap es → IsBeginning p held
        → subscriber_loaded p site held es ≡ Ok t → (t.site ≡ site) × (keys_of t.held ≡ keys_of held) }
    ensures publisher { (p : AnyPublication) (held : List (ℕ × AnyHolder)) (es : Map) (t : Publisher) → IsMap es → IsBeginning p held
        → publisher_loaded p held es ≡ Ok t → PublisherKeeps p held t }
    ensures publisher_order { (p : AnyPublication) (held : List (ℕ × AnyHolder)) (es : Map) (t : Publisher) → IsMap es → IsBeginning p held
        → publisher_loaded p held es ≡ Ok t → IsPublisherOrdered t }
    ensures publisher_articles { (p : AnyPublication) (held : List (ℕ × AnyHolder)) (es : Map) (t : Publisher) → IsMap es → IsBeginning p held
        → publisher_loaded p held es ≡ Ok t → keys_of t.held ≡ keys_of held }
{}

/// A store that loads has no other record than those of its tables, and so each store that loads is
/// the one store of what it loads to.
pub fn loaded_has_no_other_record()
    ensures subscriber { (p : AnyPublication) (site : AnySite) (held : List (ℕ × AnyHolder)) (e : AnyEntry) (es : Map) (t : Subscriber) → IsMap (e ∷ es) → IsBeginning p held
        → subscriber_loaded p site held (e ∷ es) ≡ Ok t → e ∷ es ≡ subscriber_records t }
    ensures publisher { (p : AnyPublication) (held : List (ℕ × AnyHolder)) (e : AnyEntry) (es : Map) (t : Publisher) → IsMap (e ∷ es) → IsBeginning p held
        → publisher_loaded p held (e ∷ es) ≡ Ok t → e ∷ es ≡ publisher_records t }
{}
