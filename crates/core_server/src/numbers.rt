//! What a server knows of its numbers.
ghost use Rattle.std.specs.Prelude.{◌≡◌};
ghost use Rattle.shape_base.specs.RegistryHistory.{is_live, is_starting};
ghost use Rattle.core_law.specs.Situation as law;
ghost use Rattle.core_law.specs.Situation.{Options};
ghost use Rattle.core_server.specs.Standing.{Stands};

use crate::server::Server;
use shape_registry::Standing;

impl Server {
    /// Whether a number was given and not removed since.
    pub fn is_live(&self, number: u64) -> bool
        ensures { (o : Options) (v : law.Server) → Stands o v self.now → result ≡ is_live v.registry number }
    {
        match self.registry.standing(number) {
            Standing::Starting => true,
            Standing::Ready => true,
            Standing::NotLive => false,
        }
    }

    /// Whether a number is live and has no snapshot yet.
    pub fn is_starting(&self, number: u64) -> bool
        ensures { (o : Options) (v : law.Server) → Stands o v self.now → result ≡ is_starting v.registry number }
    {
        match self.registry.standing(number) {
            Standing::Starting => true,
            Standing::Ready => false,
            Standing::NotLive => false,
        }
    }
}
