//! What the publisher and a subscriber hold, as far as the rules of a message ask for it.
ghost use Rattle.std.specs.Prelude.{◌≡◌};
ghost use Rattle.merge_ident.specs.Grants.{granted_to, is_granted};

use merge_gens::SiteState;
use merge_types::{RowId, SiteId};

/// The tables of the publisher. It is asked for each item of a message, so an answer should take no
/// longer than a look-up. No clause says so.
pub trait Holdings {
    ghost use Rattle.merge_batch.specs.Known.{Known};

    ghost known: { Self → Known };

    /// How many changes the publisher made.
    fn changes(&self) -> u64
        ensures { result ≡ (known self.now).changes };

    /// What is remembered of a site, none where it never joined.
    fn state(&self, site: SiteId) -> Option<SiteState>
        ensures { result ≡ (known self.now).state site.0 };

    /// The identity value of a row that lives here, none where it does not or has none.
    fn identity(&self, article: u8, row: RowId) -> Option<i64>
        ensures { result ≡ (known self.now).identity article row.0 };

    /// Whether a value of the article lies in a range that was granted to the site.
    fn has_granted(&self, article: u8, site: SiteId, value: i64) -> bool
        ensures { result ≡ is_granted article site.0 value (known self.now).grants };

    /// How many ranges of the article were granted to the site.
    fn granted(&self, article: u8, site: SiteId) -> u64
        ensures { result ≡ granted_to article site.0 (known self.now).grants };
}

/// The identity ranges of a subscriber.
pub trait HeardRanges {
    ghost use Rattle.merge_batch.specs.Replies.{Heard};

    ghost heard: { Self → Heard };

    /// How many ranges of the article the site heard of, none where it asks for none.
    fn have(&self, article: u8) -> Option<u64>
        ensures { result ≡ heard self.now article };
}
