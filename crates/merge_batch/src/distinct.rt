//! Members of a message that speak of one article each.
ghost use Rattle.std.specs.Prelude.{◌≡◌, ◌==◌, map};
ghost use Rattle.std.specs.List.{list_any};
ghost use Rattle.merge_batch.specs.Search.{are_distinct};

use crate::{RangeGrant, Want};

// A member that speaks of an article.
pub trait OfArticle {
    ghost use Rattle.std.specs.Prelude.{◌≡◌, ℕ};

    ghost place: { Self → ℕ };

    // The article's place in the publication.
    fn article(&self) -> u8
        ensures { result ≡ place self.now };
}

impl OfArticle for Want {
    ghost use Rattle.merge_batch.specs.Asks.{wanted_article};

    ghost place = { wanted_article };

    fn article(&self) -> u8 {
        self.article
    }
}

impl OfArticle for RangeGrant {
    ghost use Rattle.merge_batch.specs.Replies.{granted_article};

    ghost place = { granted_article };

    fn article(&self) -> u8 {
        self.article
    }
}

// Whether no article comes twice. As there are at most 256 places of articles, one of the first 257
// members is found again, so that the work is linear: this is said by no clause.
pub fn articles_differ<T: OfArticle>(members: &[T]) -> bool
    ensures { result ≡ are_distinct (map T.place members.now) }
{
    for (at, member) in members.iter().enumerate() {
        let (_, later) = members.split_at(at + 1);
        if has_article(later, member.article()) {
            return false;
        }
    }
    true
}

// Whether a member speaks of the article.
fn has_article<T: OfArticle>(members: &[T], article: u8) -> bool
    ensures { result ≡ list_any (λ member. T.place member == article) members.now }
{
    members.iter().any(|member| member.article() == article)
}
