//! What holds of all records: each is of one value and each value has one, what is written reads
//! back, and nothing else is read. These functions do nothing: their contracts are the laws.
ghost use Rattle.std.specs.Prelude.{◌^◌};
ghost use Rattle.std.specs.Int.{w16, w64, w8, to_be_bytes};
ghost use Rattle.merge_record.specs.Reading.{number_at};
ghost use Rattle.merge_record.specs.Codec.{AreRecords, IsBelow};
ghost use Rattle.merge_record.specs.Rows.{publisher_row_at, publisher_row_bytes, IsPublisherRow, subscriber_row_at, subscriber_row_bytes, IsSubscriberRow};
ghost use Rattle.merge_record.specs.Tables.{row_key_at, row_key_bytes, IsRowKey, row_site_at, row_site_bytes, IsRowSite, mapping_at, mapping_bytes, IsMapping, grant_key_at, grant_key_bytes, IsGrantKey, range_at, range_bytes, IsRange, held_at, held_bytes, IsHeld, site_state_at, site_state_bytes, IsSiteState};

/// Rows at both kinds of site.
pub fn row_records()
    ensures publisher { AreRecords publisher_row_bytes publisher_row_at IsPublisherRow }
    ensures subscriber { AreRecords subscriber_row_bytes subscriber_row_at IsSubscriberRow }
{}

/// The keys of all tables.
pub fn key_records()
    ensures row { AreRecords row_key_bytes row_key_at IsRowKey }
    ensures mapping { AreRecords row_site_bytes row_site_at IsRowSite }
    ensures grant { AreRecords grant_key_bytes grant_key_at IsGrantKey }
    ensures article { AreRecords (to_be_bytes w8) (number_at w8) (IsBelow (2 ^ 8)) }
    ensures site { AreRecords (to_be_bytes w16) (number_at w16) (IsBelow (2 ^ 16)) }
    ensures number { AreRecords (to_be_bytes w64) (number_at w64) (IsBelow (2 ^ 64)) }
{}

/// Mappings, ranges and subscriptions.
pub fn value_records()
    ensures mapping { AreRecords mapping_bytes mapping_at IsMapping }
    ensures granted { AreRecords range_bytes range_at IsRange }
    ensures held { AreRecords held_bytes held_at IsHeld }
    ensures site { AreRecords site_state_bytes site_state_at IsSiteState }
{}
