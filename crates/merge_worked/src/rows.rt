//! One function for each script. They do nothing: their contracts say what is computed.
ghost use Rattle.std.specs.Prelude.{◌≡◌, ◌∷◌, [], pos, true};
ghost use Rattle.merge_schema.specs.Valid.{IsValid};
ghost use Rattle.merge_model.specs.Laws.Promises.{AllAccounted, AllStand, SettledHoldsPartition};
ghost use Rattle.merge_worked.specs.Worked.{IsPlayed, IsPlayedBy, IsTold, IsToldBy, tallies_by};
ghost use Rattle.merge_worked.specs.ARowGoesOver.{a_row_goes_over as a_row_goes_over_worked};
ghost use Rattle.merge_worked.specs.FirstUpdateStays.{first_update_stays as first_update_stays_worked};
ghost use Rattle.merge_worked.specs.HigherPriorityWins.{higher_priority_wins as higher_priority_wins_worked};
ghost use Rattle.merge_worked.specs.EqualPriorities.{equal_priorities as equal_priorities_worked};
ghost use Rattle.merge_worked.specs.ColumnsMerge.{columns_merge as columns_merge_worked};
ghost use Rattle.merge_worked.specs.FirstDeleteStays.{first_delete_stays as first_delete_stays_worked};
ghost use Rattle.merge_worked.specs.HigherUpdateStays.{higher_update_stays as higher_update_stays_worked};
ghost use Rattle.merge_worked.specs.TwoDeletesUnite.{two_deletes_unite as two_deletes_unite_worked};
ghost use Rattle.merge_worked.specs.RepeatedUpload.{repeated_upload as repeated_upload_worked};
ghost use Rattle.merge_worked.specs.LateReply.{late_reply as late_reply_worked};
ghost use Rattle.merge_worked.specs.MadeAnew.{made_anew as made_anew_worked};
ghost use Rattle.merge_worked.specs.FilterWithNull.{filter_with_null as filter_with_null_worked};
ghost use Rattle.merge_worked.specs.NegatedFilter.{negated_filter as negated_filter_worked};
ghost use Rattle.merge_worked.specs.FilterForNull.{filter_for_null as filter_for_null_worked};
ghost use Rattle.merge_worked.specs.ChildrenFollow.{children_follow as children_follow_worked};
ghost use Rattle.merge_worked.specs.UnsentRowStays.{unsent_row_stays as unsent_row_stays_worked};
ghost use Rattle.merge_worked.specs.HundredGenerations.{hundred_generations as hundred_generations_worked};
ghost use Rattle.merge_worked.specs.DaysWork.{days_work as days_work_worked};
ghost use Rattle.merge_worked.specs.HandedIn.{decided_by_one_value as decided_by_one_value_worked, decided_by_two_values as decided_by_two_values_worked, one_value, two_values};
ghost use Rattle.merge_worked.specs.ManyGenerations.{many_generations as many_generations_worked};
ghost use Rattle.merge_worked.specs.ExpiredSite.{expired_site as expired_site_worked};
ghost use Rattle.merge_worked.specs.IdentityValues.{identity_values as identity_values_worked};
ghost use Rattle.merge_worked.specs.LostGrant.{lost_grant as lost_grant_worked};
ghost use Rattle.merge_worked.specs.PurgedTombstone.{purged_tombstone as purged_tombstone_worked};
ghost use Rattle.merge_worked.specs.BothChangesSum.{both_changes_sum as both_changes_sum_worked};
ghost use Rattle.merge_worked.specs.ColumnUpdateStays.{column_update_stays as column_update_stays_worked};
ghost use Rattle.merge_worked.specs.EverythingHappens.{everything_happened, everything_happens as everything_happens_worked, publication, purge_comes};
ghost use Rattle.merge_worked.specs.Happened.{all_are_accounted, all_letters_stand, all_rows_stand, all_sessions_settle, all_stay_inside, all_tables_stand, changes_given_up, changes_lost, changes_made, changes_purged, changes_unsent, generations_done, held_at_settled, old_are_past, old_generations, owed_to_settled, ranges_granted, rows_held, rows_put, rows_removed, settled_sites, values_taken, versions_lost};

/// A row is made at the publisher, and a session brings it to a subscriber.
pub fn a_row_goes_over()
    ensures machine { IsPlayed a_row_goes_over_worked }
    ensures model { IsTold a_row_goes_over_worked }
{}

/// Two subscribers update one row. Among clients the update that comes first stays.
pub fn first_update_stays()
    ensures machine { IsPlayed first_update_stays_worked }
    ensures model { IsTold first_update_stays_worked }
{}

/// Two subscribers with priorities update one row. The higher priority wins.
pub fn higher_priority_wins()
    ensures machine { IsPlayed higher_priority_wins_worked }
    ensures model { IsTold higher_priority_wins_worked }
{}

/// With equal priorities the update that comes first stays.
pub fn equal_priorities()
    ensures machine { IsPlayed equal_priorities_worked }
    ensures model { IsTold equal_priorities_worked }
{}

/// With column tracking, updates of different columns merge, and updates of one column conflict.
pub fn columns_merge()
    ensures machine { IsPlayed columns_merge_worked }
    ensures model { IsTold columns_merge_worked }
{}

/// An update meets a delete that came first. The delete stays, and the update is kept as lost.
pub fn first_delete_stays()
    ensures machine { IsPlayed first_delete_stays_worked }
    ensures model { IsTold first_delete_stays_worked }
{}

/// An update of a higher priority meets a delete. The row lives again.
pub fn higher_update_stays()
    ensures machine { IsPlayed higher_update_stays_worked }
    ensures model { IsTold higher_update_stays_worked }
{}

/// Both subscribers deleted the row, which is no conflict.
pub fn two_deletes_unite()
    ensures machine { IsPlayed two_deletes_unite_worked }
    ensures model { IsTold two_deletes_unite_worked }
{}

/// An upload that comes three times acts once.
pub fn repeated_upload()
    ensures machine { IsPlayed repeated_upload_worked }
    ensures model { IsTold repeated_upload_worked }
{}

/// A reply to an older message is passed over.
pub fn late_reply()
    ensures machine { IsPlayed late_reply_worked }
    ensures model { IsTold late_reply_worked }
{}

/// A subscriber is made anew. What it had not sent is in its conflict table, and old messages are stale.
pub fn made_anew()
    ensures machine { IsPlayed made_anew_worked }
    ensures model { IsTold made_anew_worked }
{}

/// A Null passes no comparison of a filter.
pub fn filter_with_null()
    ensures machine { IsPlayed filter_with_null_worked }
    ensures model { IsTold filter_with_null_worked }
{}

/// Nor does it pass the negated one.
pub fn negated_filter()
    ensures machine { IsPlayed negated_filter_worked }
    ensures model { IsTold negated_filter_worked }
{}

/// It passes the test for Null.
pub fn filter_for_null()
    ensures machine { IsPlayed filter_for_null_worked }
    ensures model { IsTold filter_for_null_worked }
{}

/// A row leaves for the partition of another site, and the rows that join to it follow through two articles.
pub fn children_follow()
    ensures machine { IsPlayed children_follow_worked }
    ensures model { IsTold children_follow_worked }
{}

/// A row that left the partition stays at the subscriber that changed it until the change is sent.
pub fn unsent_row_stays()
    ensures machine { IsPlayed unsent_row_stays_worked }
    ensures model { IsTold unsent_row_stays_worked }
{}

/// A batch has at most a hundred generations.
pub fn many_generations()
    ensures { IsPlayed many_generations_worked }
{}

/// A site expires behind the retention, and a generation is forgotten one day later.
pub fn expired_site()
    ensures machine { IsPlayed expired_site_worked }
    ensures model { IsTold expired_site_worked }
{}

/// Identity values come from granted ranges, and run out at the greatest.
pub fn identity_values()
    ensures machine { IsPlayed identity_values_worked }
    ensures model { IsTold identity_values_worked }
{}

/// A grant whose reply was lost is granted again, and not anew.
pub fn lost_grant()
    ensures machine { IsPlayed lost_grant_worked }
    ensures model { IsTold lost_grant_worked }
{}

/// An update of a row whose tombstone was purged is kept as lost.
pub fn purged_tombstone()
    ensures machine { IsPlayed purged_tombstone_worked }
    ensures model { IsTold purged_tombstone_worked }
{}

/// A resolver decides the sum of both values.
pub fn both_changes_sum()
    ensures machine { IsPlayed both_changes_sum_worked }
    ensures model { IsTold both_changes_sum_worked }
{}

/// With column tracking, an update that came first stays against a delete.
pub fn column_update_stays()
    ensures machine { IsPlayed column_update_stays_worked }
    ensures model { IsTold column_update_stays_worked }
{}

/// In one script rows conflict in each way, a site is made anew and joins again, rows leave partitions
/// and come into others, an old message comes late, and tombstones are purged. Afterwards each
/// promise speaks of something, and holds; so does what is promised of a purge as it comes. The
/// publication is valid with the program's five resolvers.
pub fn everything_happens()
    ensures valid { IsValid 5 publication }
    ensures machine { IsPlayed everything_happens_worked }
    ensures model { IsTold everything_happens_worked }
    ensures made { changes_made everything_happened ≡ 28 }
    ensures lost { changes_lost everything_happened ≡ 11 }
    ensures purged { changes_purged everything_happened ≡ 9 }
    ensures given_up { changes_given_up everything_happened ≡ 1 }
    ensures versions { versions_lost everything_happened ≡ 8 }
    ensures generations { generations_done everything_happened ≡ (2, 1) ∷ (1, 1) ∷ (3, 1) ∷ (3, 2) ∷ (2, 2) ∷ (1, 2) ∷ [] }
    ensures values { values_taken everything_happened ≡ pos 51 ∷ pos 5 ∷ pos 4 ∷ pos 3 ∷ pos 2 ∷ pos 1 ∷ [] }
    ensures ranges { ranges_granted everything_happened ≡ 7 }
    ensures accounted { all_are_accounted everything_happened ≡ true }
    ensures rows_stand { all_rows_stand everything_happened ≡ true }
    ensures letters_stand { all_letters_stand everything_happened ≡ true }
    ensures tables_stand { all_tables_stand everything_happened ≡ true }
    ensures all_accounted { AllAccounted everything_happened }
    ensures all_stand { AllStand everything_happened }
    ensures settled { settled_sites publication everything_happened ≡ 1 ∷ 2 ∷ 3 ∷ [] }
    ensures holding { rows_held publication everything_happened ≡ 5 ∷ 5 ∷ 4 ∷ [] }
    ensures held { held_at_settled publication everything_happened ≡ owed_to_settled publication everything_happened }
    ensures all_hold { SettledHoldsPartition publication everything_happened }
    ensures put { rows_put publication everything_happened ≡ 14 }
    ensures removed { rows_removed publication everything_happened ≡ 3 }
    ensures inside { all_stay_inside publication everything_happened ≡ true }
    ensures unsent { changes_unsent purge_comes ≡ 1 }
    ensures accounted_before { all_are_accounted purge_comes ≡ true }
    ensures sessions { all_sessions_settle publication purge_comes ≡ true }
    ensures old { old_generations publication purge_comes ≡ 1 ∷ 2 ∷ 3 ∷ 4 ∷ [] }
    ensures past { old_are_past publication purge_comes ≡ true }
{}

/// A hundred generations go into one upload: the batch ends at its limit.
pub fn hundred_generations()
    ensures { IsPlayed hundred_generations_worked }
{}

/// A day's work of three sites that each have their customers and the orders of these. One upload acts
/// whose answer is lost, and another is never delivered: both come again with the next session.
pub fn days_work()
    ensures machine { IsPlayed days_work_worked }
    ensures model { IsTold days_work_worked }
{}

/// A resolver that is handed in decides a conflict with a value of its own. Both versions are lost, and
/// it is asked once.
pub fn decided_by_one_value()
    ensures machine { IsPlayedBy one_value (0 ∷ 0 ∷ 0 ∷ 0 ∷ 0 ∷ 0 ∷ []) decided_by_one_value_worked }
    ensures model { IsToldBy one_value (0 ∷ 0 ∷ 0 ∷ 0 ∷ 0 ∷ 0 ∷ []) decided_by_one_value_worked }
    ensures asked { tallies_by one_value (0 ∷ 0 ∷ 0 ∷ 0 ∷ 0 ∷ 0 ∷ []) decided_by_one_value_worked ≡ 0 ∷ 0 ∷ 0 ∷ 0 ∷ 0 ∷ 1 ∷ [] }
{}

/// One that decides with more values than the row has columns counts as one that keeps the publisher's
/// version. It is asked once too.
pub fn decided_by_two_values()
    ensures machine { IsPlayedBy two_values (0 ∷ 0 ∷ 0 ∷ 0 ∷ 0 ∷ 0 ∷ []) decided_by_two_values_worked }
    ensures model { IsToldBy two_values (0 ∷ 0 ∷ 0 ∷ 0 ∷ 0 ∷ 0 ∷ []) decided_by_two_values_worked }
    ensures asked { tallies_by two_values (0 ∷ 0 ∷ 0 ∷ 0 ∷ 0 ∷ 0 ∷ []) decided_by_two_values_worked ≡ 0 ∷ 0 ∷ 0 ∷ 0 ∷ 0 ∷ 1 ∷ [] }
{}
