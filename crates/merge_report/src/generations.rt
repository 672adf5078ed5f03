//! Where sites stand in their generations.
ghost use Rattle.std.specs.Prelude.{◌≡◌, ◌++◌, ◌∷◌, OnOk, Some, string_bytes};
ghost use Rattle.std.specs.Fmt.{decimal};
ghost use Rattle.merge_model.specs.Script.Text.{line, publisher_text, state_words, subscriber_text, subscription_line};

use merge_gens::{Filling, Marks, SiteState};
use merge_model::SiteStanding;
use merge_types::{NoMemory, SiteId};

// Adds what the publisher knows of a site that joined.
fn add_state(text: &mut String, site: SiteId, state: SiteState) -> Result<(), NoMemory>
    ensures { OnOk result (string_bytes text.new ≡ string_bytes text.old ++ line (decimal site.0 ∷ state_words (Some state))) }
{
    writeln!(
        text,
        "{} joined {} received {} number {} watermark {} synced {}",
        site.0,
        state.joined_at,
        state.received,
        state.received_number,
        state.watermark,
        state.last_sync
    )?;
    Ok(())
}

// Adds what the publisher knows of a subscription.
fn add_standing(text: &mut String, standing: &SiteStanding) -> Result<(), NoMemory>
    ensures { OnOk result (string_bytes text.new ≡ string_bytes text.old ++ subscription_line standing.now) }
{
    match standing.state {
        Some(state) => add_state(text, standing.site, state),
        None => {
            writeln!(text, "{} fresh", standing.site.0)?;
            Ok(())
        }
    }
}

/// Adds the generations of the publisher, and what it knows of each subscription.
pub fn add_publisher(
    text: &mut String,
    filling: Filling,
    kept: u64,
    sites: &[SiteStanding],
) -> Result<(), NoMemory>
    ensures { OnOk result (string_bytes text.new ≡ string_bytes text.old ++ publisher_text filling kept sites.now) }
{
    write!(
        text,
        "closed {} open {}",
        filling.last_closed, filling.filled
    )?;
    writeln!(text, " kept {kept}")?;
    for standing in sites {
        add_standing(text, standing)?;
    }
    Ok(())
}

/// Adds the generations of a subscriber.
pub fn add_subscriber(text: &mut String, marks: Marks, unsent: u64) -> Result<(), NoMemory>
    ensures { OnOk result (string_bytes text.new ≡ string_bytes text.old ++ subscriber_text marks unsent) }
{
    write!(
        text,
        "closed {} open {} received {} watermark {}",
        marks.closed, marks.filled, marks.received, marks.watermark
    )?;
    writeln!(
        text,
        " seq {} outstanding {} unsent {unsent}",
        marks.seq, marks.outstanding
    )?;
    Ok(())
}
