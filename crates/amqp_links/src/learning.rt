//! What was told of a link's deliveries and is not learnt.
ghost use Rattle.std.specs.Prelude.{◌≡◌, option_map};
ghost use Rattle.amqp_links.specs.Waits.{first_told, heard};

use crate::link::Link;
use amqp_deliveries::Telling;

impl Link {
    /// What was told first.
    pub fn first_told(&self) -> Option<&Telling>
        ensures { option_map heard result ≡ first_told self.now.told }
    {
        self.told.front()
    }
}
