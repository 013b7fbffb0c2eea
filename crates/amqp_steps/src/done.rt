//! What a step gives that was done.
ghost use Rattle.std.specs.Prelude.{◌≡◌, [], None};

use amqp_rules::reply::{Given, Reply};
use amqp_rules::sliced::Sliced;
use amqp_types::Items;
use std::alloc::Global;

/// What a step gives: its reply, a handle of the octets that it sends, and once more what it tells the application.
#[derive(Drop)]
pub struct Done {
    pub reply: Reply,
    pub octets: Option<Sliced>,
    pub given: Given,
}

impl Done {
    /// Its reply and its octets, without what it tells once more.
    pub fn once(self) -> (Reply, Option<Sliced>)
        ensures reply { result.0 ≡ self.reply }
        ensures octets { result.1 ≡ self.octets }
    {
        let Done {
            reply,
            octets,
            given,
        } = self;
        drop(given);
        (reply, octets)
    }
}

/// A reply that sends nothing and ends nothing.
pub fn quiet_reply(alloc: Global, given: Given) -> Reply
    ensures { result ≡ record { sent = []; ended = []; given = given } }
{
    Reply {
        sent: Items::new(alloc),
        ended: Items::new(alloc),
        given,
    }
}

/// A step that sends nothing and ends nothing.
pub fn quiet_done(alloc: Global, given: Given, once_more: Given) -> Done
    ensures { result ≡ record { reply = record { sent = []; ended = []; given = given }; octets = None; given = once_more } }
{
    Done {
        reply: quiet_reply(alloc, given),
        octets: None,
        given: once_more,
    }
}
