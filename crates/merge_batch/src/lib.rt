//! Messages between a subscriber and the publisher, when they are valid, and why a call is refused.
#![tactic(auto)]

mod answer;
mod article;
mod asks;
mod distinct;
mod holdings;
mod laws;
mod lineage;
mod maker;
mod order;
mod refusal;
mod reply;
mod request;
mod rules;
mod standing;
mod upload;

pub use answer::reply_fault;
pub use article::{fits_article, has_article};
pub use asks::{join_fault, ranges_fault};
pub use holdings::{HeardRanges, Holdings};
pub use laws::{maker_law, search_laws, validity_laws};
pub use lineage::{is_site, knows_tops};
pub use maker::maker as maker_of;
pub use refusal::Refusal;
pub use reply::{
    Act, DownloadItem, DownloadItems, Downloaded, Ended, EndedRanges, Joined, RangeGrant,
    RangeGrants, Ranged, Reply, Uploaded,
};
pub use request::{
    Download, Join, Kind, Outstanding, RangeAsk, Request, Upload, UploadItem, UploadItems, Want,
    Wants,
};
pub use rules::BrokenRule;
pub use standing::Standing;
pub use upload::{identity_value, upload_fault};
