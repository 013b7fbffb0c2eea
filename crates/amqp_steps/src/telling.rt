//! The flows that are sent (part 2, 2.7.4).
ghost use Rattle.std.specs.Prelude.{◌≡◌};
ghost use Rattle.amqp_links.specs.Credits.{role_of};
ghost use Rattle.amqp_links.specs.Marks.{with_marks};
ghost use Rattle.amqp_rules.specs.Telling.{flag, link_flow, sender_flow, session_flow, standing_flow};
ghost use Rattle.amqp_rules.specs.View.{LinkView, handle_of};

use amqp_flow::windows::Windows;
use amqp_frames::FlowBody;
use amqp_links::credit::Credit;
use amqp_links::marks::Marks;

/// The outgoing window that each begin and each flow of ours tells (part 2, 2.5.6), in transfers.
pub const OUTGOING_WINDOW: u32 = 2147483647;

/// A flag is said where it is true, and left off else.
pub fn flag(is_true: bool) -> Option<bool>
    ensures { result ≡ flag is_true }
{
    match is_true {
        true => Some(true),
        false => None,
    }
}

/// A flow of the session alone.
pub fn session_flow(windows: &Windows) -> FlowBody
    ensures { result ≡ session_flow windows.now }
{
    FlowBody {
        next_incoming_id: windows.next_incoming(),
        incoming_window: windows.window(),
        next_outgoing_id: windows.next_outgoing(),
        outgoing_window: OUTGOING_WINDOW,
        handle: None,
        delivery_count: None,
        link_credit: None,
        available: None,
        drain: None,
        echo: None,
        properties: None,
    }
}

/// The flow of the link with these marks, which we call by this handle: its count and its credit.
pub(crate) fn link_flow(windows: &Windows, handle: u32, marks: &Marks) -> FlowBody
    ensures { (l : LinkView) → handle ≡ handle_of l.ours → result ≡ link_flow windows.now (with_marks marks.now l) }
{
    let (count, credit) = match &marks.credit {
        Credit::Sending(credit) => (credit.count(), credit.credit()),
        Credit::Receiving(credit) => (credit.count(), credit.credit()),
    };
    let mut told = session_flow(windows);
    told.handle = Some(handle);
    told.delivery_count = Some(count);
    told.link_credit = Some(credit);
    told
}

/// That of a link on which we send: what is available too.
pub fn sender_flow(windows: &Windows, handle: u32, marks: &Marks, drain: Option<bool>) -> FlowBody
    ensures { (l : LinkView) → handle ≡ handle_of l.ours → result ≡ sender_flow windows.now (with_marks marks.now l) drain }
{
    let mut told = link_flow(windows, handle, marks);
    told.available = Some(marks.available);
    told.drain = drain;
    told
}

/// That of a link as it stands.
pub fn standing_flow(windows: &Windows, handle: u32, marks: &Marks) -> FlowBody
    ensures { (l : LinkView) → handle ≡ handle_of l.ours → result ≡ standing_flow windows.now (with_marks marks.now l) (role_of marks.now.credit) }
{
    match &marks.credit {
        Credit::Sending(credit) => {
            sender_flow(windows, handle, marks, flag(credit.is_draining()))
        }
        Credit::Receiving(credit) => {
            let mut told = link_flow(windows, handle, marks);
            told.drain = flag(credit.is_draining());
            told
        }
    }
}
