//! When a site has expired.
ghost use Rattle.std.specs.Prelude.{◌≡◌};
ghost use Rattle.merge_gens.specs.Retention.{is_expired};

use merge_types::Moment;

const DAY_SECONDS: u64 = 86_400;

/// Whether the site was last in step longer ago than the retention. A site that was so at a later
/// moment than now has not expired. The rule is that of SQL Server's page on the expiration of
/// subscriptions, with moments in seconds.
pub fn expired(last_sync: Moment, now: Moment, retention_days: u32) -> bool
    ensures { result ≡ is_expired last_sync now retention_days }
{
    now.0.saturating_sub(last_sync.0) > DAY_SECONDS * u64::from(retention_days)
}
