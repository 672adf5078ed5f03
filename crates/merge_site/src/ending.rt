//! Sites that stop.
ghost use Rattle.std.specs.Prelude.{◌≡◌};
ghost use Rattle.merge_site.specs.Publishers.{IsKeptPublisher};
ghost use Rattle.merge_site.specs.Subscribers.{IsKeptSubscriber};

use crate::publisher::KeptPublisher;
use crate::subscriber::KeptSubscriber;
use merge_ports::Keeper;

impl<K: Keeper> KeptPublisher<K> {
    /// Stops the site, and gives its keeper back, which has the records of its tables and tells what it told.
    pub fn into_keeper(self) -> K
        ensures kept { IsKeptPublisher self.tables (K.told result) }
        ensures told { K.told result ≡ self.told }
        ensures faults { K.count result ≡ self.faults }
    {
        self.keeper
    }
}

impl<K: Keeper> KeptSubscriber<K> {
    /// Stops the site, and gives its keeper back, which has the records of its tables and tells what it told.
    pub fn into_keeper(self) -> K
        ensures kept { IsKeptSubscriber self.tables (K.told result) }
        ensures told { K.told result ≡ self.told }
        ensures faults { K.count result ≡ self.faults }
    {
        self.keeper
    }
}
