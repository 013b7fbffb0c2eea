//! What waits on a link to be taken.
ghost use Rattle.std.specs.Prelude.{◌≡◌, option_map};
ghost use Rattle.amqp_links.specs.Waits.{first_waiting, seen};

use crate::arrival::Waiting;
use crate::link::Link;

impl Link {
    /// The delivery that waits first.
    pub fn first_waiting(&self) -> Option<&Waiting>
        ensures { option_map seen result ≡ first_waiting self.now.ready }
    {
        self.ready.front()
    }
}
