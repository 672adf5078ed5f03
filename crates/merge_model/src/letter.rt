//! Messages on their way.
use merge_batch::{Reply, Request};
use merge_types::SiteId;

/// A request of a site, or a reply to one.
#[derive(Debug, Drop)]
pub enum Message {
    Asks(Request),
    Replies(Reply),
}

/// A message with its site: the one that asks, or the one that the reply goes to.
#[derive(Debug, Drop)]
pub struct Letter {
    pub site: SiteId,
    pub message: Message,
}
