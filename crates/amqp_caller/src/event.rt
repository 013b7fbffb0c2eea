//! What a call reports, as plain numbers.
ghost use Rattle.std.specs.Prelude.{◌≡◌, length, min, take};
ghost use Rattle.amqp_caller.specs.Calls.{IsTold};
ghost use Rattle.amqp_caller.specs.Numbers.{id_number, state_number, verdict_number};

use amqp_conn::{DeliveryState, Given, Learned, Resumed, Tag, Taken, Verdict};

/// Stands in [`Event::handle`] and [`Event::id`] for none.
pub const NONE: u32 = u32::MAX;

/// What a call reports, as plain numbers. `kind` says which of the fields have a meaning; the others are 0.
#[repr(C)]
#[derive(Clone, Copy, Drop)]
pub struct Event {
    /// What the step gave: 0 nothing, 1 our attach was sent, 2 the peer offers a link, 3 the peer answered our attach, 4 a link is gone,
    /// 5 a delivery was begun, 6 a delivery is ready, 7 a delivery was taken, 8 an outcome was learnt, 9 a link was suspended by us,
    /// 10 a link was suspended by the peer, 11 a delivery was resumed, 12 a delivery waits to be resumed.
    pub kind: u32,
    /// The number of the link, of the kinds 1 to 4, 6 to 8 and 10.
    pub link: u32,
    /// The id of the delivery, of the kinds 5 to 8 and 11; [`NONE`] if a delivery was resumed without a transfer.
    pub id: u32,
    /// The state that the peer told, of the kinds 8 and 11: 0 none, 1 received, 2 accepted, 3 rejected, 4 released, 5 modified, 6 another.
    pub state: u32,
    /// The number of the violation that a feed answered; 0 if there was none.
    pub violation: u32,
    /// The frame that the step of a feed heard: 0 none, 2 begin, 3 attach, 4 flow, 5 transfer, 6 disposition, 7 detach, 8 end.
    pub frame: u32,
    /// The phase of the connection after the call, as [`crate::Caller::phase`] returns it.
    pub phase: u32,
    /// The peer's handle of the link whose flow was heard; [`NONE`] for any other frame, and for a flow of the session alone.
    pub handle: u32,
    /// The message-format of a delivery that was taken (part 2, 2.8.11).
    pub format: u32,
    /// What the peer holds of a delivery that was resumed: 0 unclear, 1 absent, 2 partial, 3 held, 4 an outcome.
    pub verdict: u32,
    /// How many octets `tag` has.
    pub tag_len: u32,
    /// The length of the payload that was taken, in octets.
    pub payload_len: u64,
    /// The tag of the delivery, of the kinds 7 and 8, followed by zeros.
    pub tag: [u8; 32],
    /// The delivery is settled, of the kinds 7 and 8.
    pub settled: bool,
    /// The receiver of the delivery that was taken settles second (part 2, 2.8.3).
    pub second: bool,
    /// The journal has one entry more.
    pub stepped: bool,
}

/// Returns the number of a state: 0 if there is none.
pub fn state_number(state: &Option<DeliveryState>) -> u32
    ensures { result ≡ state_number state.now }
{
    match state {
        None => 0,
        Some(DeliveryState::Received { .. }) => 1,
        Some(DeliveryState::Accepted) => 2,
        Some(DeliveryState::Rejected(_)) => 3,
        Some(DeliveryState::Released) => 4,
        Some(DeliveryState::Modified { .. }) => 5,
        Some(DeliveryState::Other(_)) => 6,
    }
}

pub fn verdict_number(verdict: Verdict) -> u32
    ensures { result ≡ verdict_number verdict }
{
    match verdict {
        Verdict::Unclear => 0,
        Verdict::Absent => 1,
        Verdict::Partial => 2,
        Verdict::Held => 3,
        Verdict::Outcome => 4,
    }
}

pub fn id_number(id: Option<u32>) -> u32
    ensures { result ≡ id_number id }
{
    match id {
        Some(id) => id,
        None => NONE,
    }
}

/// Returns the octets of the tag, followed by zeros.
pub fn padded(tag: &Tag) -> [u8; 32]
    ensures { take (length tag.now) result ≡ tag.now }
{
    let octets = tag.octets();
    let mut room = [0; 32];
    room[..octets.len()].copy_from_slice(octets);
    room
}

impl Event {
    /// Returns the event that reports nothing.
    pub fn none() -> Event
        ensures kind { result.kind ≡ 0 }
        ensures violation { result.violation ≡ 0 }
    {
        Event {
            kind: 0,
            link: 0,
            id: 0,
            state: 0,
            violation: 0,
            frame: 0,
            phase: 0,
            handle: NONE,
            format: 0,
            verdict: 0,
            tag_len: 0,
            payload_len: 0,
            tag: [0; 32],
            settled: false,
            second: false,
            stepped: false,
        }
    }

    /// Returns the event of this kind on the link.
    fn on_link(kind: u32, link: u32) -> Event
        ensures kind { result.kind ≡ kind }
        ensures link { result.link ≡ link }
        ensures violation { result.violation ≡ 0 }
    {
        Event {
            kind,
            link,
            ..Event::none()
        }
    }

    /// Returns the event that reports what a step gave.
    pub fn of(given: &Given) -> Event
        ensures told { IsTold given.now result }
        ensures violation { result.violation ≡ 0 }
    {
        match given {
            Given::Nothing => Event::none(),
            Given::Link(link) => Event::on_link(1, *link),
            Given::Offered(link) => Event::on_link(2, *link),
            Given::Attached(link) => Event::on_link(3, *link),
            Given::Gone(link) => Event::on_link(4, *link),
            Given::Delivery(id) => Event {
                kind: 5,
                id: *id,
                ..Event::none()
            },
            Given::Ready(link, id) => Event {
                id: *id,
                ..Event::on_link(6, *link)
            },
            Given::Taken(taken) => of_taken(taken.get()),
            Given::Learned(learned) => of_learned(learned.get()),
            Given::Suspended(_) => Event::on_link(9, 0),
            Given::Parted(link, _) => Event::on_link(10, *link),
            Given::Resumed(resumed) => of_resumed(resumed.get()),
        }
    }
}

/// Returns the event of a delivery that was taken.
pub fn of_taken(taken: &Taken) -> Event
    ensures told { (result.kind ≡ 7) × (result.link ≡ taken.now.link) × (result.id ≡ taken.now.id) × (result.format ≡ taken.now.format) × (result.settled ≡ taken.now.settled) × (result.second ≡ taken.now.second) }
    ensures tag { take result.tag_len result.tag ≡ taken.now.tag }
    ensures payload { result.payload_len ≡ min (length taken.now.payload) 18446744073709551615 }
    ensures violation { result.violation ≡ 0 }
{
    Event {
        id: taken.id,
        format: taken.format,
        tag_len: taken.tag.octets().len() as u32,
        payload_len: taken.payload.len(),
        tag: padded(&taken.tag),
        settled: taken.settled,
        second: taken.second,
        ..Event::on_link(7, taken.link)
    }
}

/// Returns the event of an outcome that was learnt.
pub fn of_learned(learned: &Learned) -> Event
    ensures told { (result.kind ≡ 8) × (result.link ≡ learned.now.link) × (result.id ≡ learned.now.id) × (result.settled ≡ learned.now.settled) × (result.state ≡ state_number learned.now.state) }
    ensures tag { take result.tag_len result.tag ≡ learned.now.tag }
    ensures violation { result.violation ≡ 0 }
{
    Event {
        id: learned.id,
        state: state_number(&learned.state),
        tag_len: learned.tag.octets().len() as u32,
        tag: padded(&learned.tag),
        settled: learned.settled,
        ..Event::on_link(8, learned.link)
    }
}

fn of_resumed(resumed: &Resumed) -> Event
    ensures told { (result.kind ≡ 11) × (result.verdict ≡ verdict_number resumed.now.verdict) × (result.id ≡ id_number resumed.now.id) × (result.state ≡ state_number resumed.now.state) }
    ensures violation { result.violation ≡ 0 }
{
    Event {
        kind: 11,
        id: id_number(resumed.id),
        state: state_number(&resumed.state),
        verdict: verdict_number(resumed.verdict),
        ..Event::none()
    }
}
