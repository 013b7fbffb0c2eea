//! A further transfer of the unfinished delivery: its frame, and what it leaves of the session (part 2, 2.6.14 and 2.7.5).
ghost use Rattle.std.specs.Prelude.{◌≡◌, ◌<◌, ◌^◌, ◌∷◌, [], Some};
ghost use Rattle.amqp_flow.specs.Windows.{windows_sent};
ghost use Rattle.amqp_rules.specs.Carry.{later_body};

use crate::done::Done;
use crate::onlink::OnLink;
use crate::plan::Session;
use crate::sending::Written;
use amqp_frames::{Performative, TransferBody};
use amqp_rules::reply::{Given, Reply};
use amqp_types::Items;
use std::alloc::Global;

/// A further transfer: the link as it will be, and the frame that is sent.
#[derive(Drop)]
pub struct Carrying {
    pub on: OnLink,
    pub sent: Written,
}

/// A later transfer on the link with this handle.
pub fn later_body(handle: u32, more: Option<bool>, aborted: Option<bool>) -> Option<Performative>
    ensures { result ≡ later_body handle more aborted }
{
    Some(Performative::Transfer(TransferBody {
        handle,
        delivery_id: None,
        delivery_tag: None,
        message_format: None,
        settled: None,
        more,
        rcv_settle_mode: None,
        state: None,
        resume: None,
        aborted,
        batchable: None,
    }))
}

/// The session once one transfer more was sent.
pub fn sent(mut session: Session) -> Session
    requires window { 0 < session.windows.remote_incoming }
    requires few { session.windows.sent < 2 ^ 31 }
    ensures { result ≡ record session { windows = windows_sent session.windows } }
{
    session.windows.sent();
    session
}

/// What a further transfer gives.
pub fn carried_done(alloc: Global, sent: Written) -> Done
    ensures { result ≡ record { reply = record { sent = sent ∷ []; ended = []; given = Given.Nothing }; octets = Some sent.bytes; given = Given.Nothing } }
{
    let (sent, octets) = sent.listed();
    Done {
        reply: Reply {
            sent,
            ended: Items::new(alloc),
            given: Given::Nothing,
        },
        octets: Some(octets),
        given: Given::Nothing,
    }
}
