//! Places in a publication, by name and by site.
ghost use Rattle.std.specs.Prelude.{◌≡◌, ◌<◌, IfSome, bytes_eq, length, option_copied, position};
ghost use Rattle.merge_schema.specs.declared.publication.Article.{Article};
ghost use Rattle.merge_schema.specs.Lookups.{column_place};
ghost use Rattle.merge_schema.specs.Places.{article_at, is_subscription};

use crate::names;
use crate::publication::{Article, Publication};
use merge_types::SiteId;

impl Publication {
    /// The place of the article with this name, and none where no article has it.
    pub fn article_place(&self, name: &str) -> Option<usize>
        ensures place { result ≡ position (λ (article : Article). bytes_eq article.name name.now) self.now.articles }
        ensures within { IfSome result (λ place. place < length self.now.articles) }
    {
        let articles = self.articles.as_slice();
        articles
            .iter()
            .position(|article| article.name.as_str() == name)
    }

    /// The article at a place, and none where there are not so many.
    pub fn article_at(&self, place: u8) -> Option<&Article>
        ensures { option_copied result ≡ article_at self.now place }
    {
        self.articles.as_slice().get(place as usize)
    }

    /// Whether a site subscribes.
    pub fn is_subscription(&self, site: SiteId) -> bool
        ensures { result ≡ is_subscription self.now site.0 }
    {
        let subscriptions = self.subscriptions.as_slice();
        subscriptions
            .iter()
            .any(|subscription| subscription.site.0 == site.0)
    }
}

impl Article {
    /// The place of the column with this name, and none where no column has it.
    pub fn column_place(&self, name: &str) -> Option<usize>
        ensures place { result ≡ column_place self.now.columns name.now }
        ensures within { IfSome result (λ place. place < length self.now.columns) }
    {
        names::column_place(self.columns.as_slice(), name)
    }
}
