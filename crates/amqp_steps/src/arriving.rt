//! A transfer that comes: what is made of it, what it leaves of the session and of its link's marks, and what it gives (part 2, 2.6.12 and 2.6.14).
ghost use Rattle.std.specs.Prelude.{◌≡◌, ◌<◌, ◌||◌, ◌&&◌, ◌+◌, [], false, None, Some, find, not, unwrap_or, IfOk};
ghost use Rattle.amqp_deliveries.specs.Change.{ended_in};
ghost use Rattle.amqp_steps.specs.Arriving.{change_on, item_back};
ghost use Rattle.amqp_steps.specs.Transferring.{given_heard};
ghost use Rattle.amqp_rules.specs.Status.{waiting_of};
ghost use Rattle.amqp_rules.specs.View.{has_number};
ghost use Rattle.amqp_waiting.specs.Waiting.{waits, waits_as};
ghost use Rattle.amqp_events.specs.Event.{PassesOver};
ghost use Rattle.amqp_events.specs.Numbers.{id_used, one_past};
ghost use Rattle.amqp_flow.specs.Credit.{delivery_begun};
ghost use Rattle.amqp_flow.specs.Serial.{wire};
ghost use Rattle.amqp_flow.specs.Windows.{windows_received};
ghost use Rattle.amqp_links.specs.Marks.{with_marks};
ghost use Rattle.amqp_rules.specs.Deliveries.{item_of, state_brought, transferred};

use crate::done::Done;
use crate::plan::Session;
use crate::start::credit_begun;
use crate::stores::Stores;
use amqp_deliveries::{Change, HeldItem};
use amqp_frames::{DeliveryState, Role, TransferBody};
use amqp_links::arrival::Piece;
use amqp_links::link::Link;
use amqp_links::marks::Marks;
use amqp_performatives::copying::copy_state;
use amqp_rules::reply::{Given, Reply};
use amqp_types::{Items, Tag};
use bytes::Bytes;
use std::alloc::{AllocError, Global};

/// A transfer that comes: its link, that link's mode and its marks after it, whether a delivery begins and which id it has, whether it is unsettled
/// then, whether it is brought in, and the id that is expected next. What owns memory is made of the transfer where it is used.
#[derive(Clone, Copy)]
pub struct Arriving {
    pub key: usize,
    pub number: u32,
    pub mode: u8,
    pub first: bool,
    pub begins: bool,
    pub resumed: bool,
    pub id: u32,
    pub expected: Option<u32>,
    pub marks: Marks,
}

/// How a transfer comes.
#[derive(Clone, Copy)]
pub enum Arrival {
    /// It is passed over; this id is expected next.
    Passed(Option<u32>),
    Comes(Arriving),
}

/// What a transfer gives that comes.
pub fn arrived_done(
    alloc: Global,
    b: &TransferBody,
    arriving: &Arriving,
    ended: Items<(Role, u32)>,
) -> Done
    ensures { result ≡ record { reply = record { sent = []; ended = ended; given = given_heard arriving.now.number arriving.now.id arriving.now.resumed b.now }; octets = None; given = given_heard arriving.now.number arriving.now.id arriving.now.resumed b.now } }
{
    Done {
        reply: Reply {
            sent: Items::new(alloc),
            ended,
            given: given_heard(arriving.number, arriving.id, arriving.resumed, b),
        },
        octets: None,
        given: given_heard(arriving.number, arriving.id, arriving.resumed, b),
    }
}

/// What a transfer makes of the unsettled deliveries that begins none.
pub fn change_of(b: &TransferBody, arriving: &Arriving) -> Result<Change, AllocError>
    requires { arriving.now.begins ≡ false }
    ensures { IfOk result (λ c. c ≡ change_on b.now arriving.now) }
{
    if arriving.first {
        return Ok(Change::Stay);
    }
    let state = copy_state(&b.state)?;
    Ok(Change::Continues(Role::Receiver, arriving.id, state, is_over(b)))
}

/// Our state of the delivery with the tag that waits on the link.
fn waiting_state(stores: &Stores, link: u32, tag: &Tag) -> Result<Option<DeliveryState>, AllocError>
    ensures { IfOk result (λ s. s ≡ state_brought (find (waits_as tag.now) (waiting_of (find (has_number link) stores.now.links.list)))) }
{
    match stores.links.by_number(link) {
        None => Ok(None),
        Some(found) => match found.link.standing(tag) {
            None => Ok(None),
            Some(standing) => copy_state(&standing.state),
        },
    }
}

/// The transfer as it is kept, and the delivery that it brings in.
pub fn brought_in(
    stores: &Stores,
    b: &TransferBody,
    payload: Bytes,
    arriving: &Arriving,
) -> Result<(Piece, HeldItem), AllocError>
    ensures piece { IfOk result (λ both. both.0 ≡ transferred arriving.now.mode b.now payload) }
    ensures item { IfOk result (λ both. both.1 ≡ item_back arriving.now.number arriving.now.mode b.now (state_brought (find (waits_as (unwrap_or b.now.delivery_tag [])) (waiting_of (find (has_number arriving.now.number) stores.now.links.list))))) }
{
    let local = waiting_state(stores, arriving.number, &tag_of(b))?;
    let remote = copy_state(&b.state)?;
    let piece = piece_of(arriving.mode, b, payload);
    let mut item = item_of(arriving.number, arriving.mode, b, remote);
    item.local = local;
    Ok((piece, item))
}

/// What a change ends, and the transfer as it is kept.
pub fn pieces(
    stores: &Stores,
    b: &TransferBody,
    payload: &Bytes,
    arriving: &Arriving,
    change: &Change,
) -> Result<(Items<(Role, u32)>, Piece), AllocError>
    ensures ended { IfOk result (λ both. both.0 ≡ ended_in change.now stores.now.tables) }
    ensures piece { IfOk result (λ both. both.1 ≡ transferred arriving.now.mode b.now payload.now) }
{
    let payload = payload.clone()?;
    let ended = stores.tables.ended(change)?;
    Ok((ended, piece_of(arriving.mode, b, payload)))
}

/// The transfer, as it is kept.
pub fn piece_of(mode: u8, b: &TransferBody, payload: Bytes) -> Piece
    ensures { result ≡ transferred mode b.now payload }
{
    Piece {
        id: b.delivery_id.unwrap_or(0),
        tag: tag_of(b),
        format: b.message_format.unwrap_or(0),
        second: b.rcv_settle_mode.unwrap_or(mode) == 1,
        settled: b.settled.unwrap_or(false),
        more: b.more.unwrap_or(false),
        aborted: b.aborted.unwrap_or(false),
        resumed: is_resumed(b),
        payload,
    }
}

/// The delivery that it begins.
pub fn item_of(link: u32, mode: u8, b: &TransferBody, state: Option<DeliveryState>) -> HeldItem
    ensures { result ≡ item_of link (transferred mode b.now []) state }
{
    HeldItem {
        id: b.delivery_id.unwrap_or(0),
        link,
        tag: tag_of(b),
        second: b.rcv_settle_mode.unwrap_or(mode) == 1,
        local: None,
        remote: state,
    }
}

/// The tag that is given, or else the empty one.
pub(crate) fn tag_of(b: &TransferBody) -> Tag
    ensures { result ≡ unwrap_or b.now.delivery_tag [] }
{
    match b.delivery_tag {
        Some(tag) => tag,
        None => match Tag::new(&[]) {
            Some(tag) => tag,
            None => unreachable!(),
        },
    }
}

/// The transfer settles the delivery or aborts it.
fn is_over(b: &TransferBody) -> bool
    ensures { result ≡ (unwrap_or b.now.settled false || unwrap_or b.now.aborted false) }
{
    b.settled.unwrap_or(false) || b.aborted.unwrap_or(false)
}

/// A first transfer that says so brings a delivery in.
pub fn is_resumed(b: &TransferBody) -> bool
    ensures { result ≡ unwrap_or b.now.resume false }
{
    b.resume.unwrap_or(false)
}

/// A delivery begins unsettled unless its first transfer settles or aborts it, or brings in one that does not wait.
pub fn begins_unsettled(l: &Link, b: &TransferBody) -> bool
    ensures { result ≡ (not (unwrap_or b.now.settled false || unwrap_or b.now.aborted false) && (not (unwrap_or b.now.resume false) || waits (unwrap_or b.now.delivery_tag []) l.now.waiting)) }
{
    !is_over(b) && (!is_resumed(b) || l.waits(&tag_of(b)))
}

/// A delivery that is complete can be taken, unless it was brought in.
fn given_heard(link: u32, id: u32, resumed: bool, b: &TransferBody) -> Given
    ensures { result ≡ given_heard link id resumed b.now }
{
    if b.aborted.unwrap_or(false) || b.more.unwrap_or(false) || resumed {
        Given::Nothing
    } else {
        Given::Ready(link, id)
    }
}

/// The id that is expected once a transfer was passed over.
pub fn passed_expected(given: Option<u32>, expected: Option<u32>) -> Option<u32>
    ensures { result ≡ one_past (id_used (PassesOver given) expected) expected }
{
    let (Some(id), Some(next)) = (given, expected) else {
        return expected;
    };
    if id == next {
        Some(id.wrapping_add(1))
    } else {
        expected
    }
}

/// The id that is expected once this one was used.
pub fn one_past(id: u32) -> Option<u32>
    ensures { result ≡ Some (wire (id + 1)) }
{
    Some(id.wrapping_add(1))
}

/// The session once a transfer was heard.
pub fn session_heard(mut session: Session, expected: Option<u32>) -> Session
    requires { 0 < session.windows.incoming }
    ensures { result ≡ record session { windows = windows_received session.windows; expected = expected } }
{
    session.windows.received();
    session.expected = expected;
    session
}

/// The session once a transfer was passed over, on a link that we have left: it counts in the window as any other (part 2, 2.5.6).
pub fn session_passed(session: Session, expected: Option<u32>) -> Session
    requires { 0 < session.windows.incoming }
    ensures { result ≡ record session { windows = windows_received session.windows; expected = expected } }
{
    session_heard(session, expected)
}

/// The marks of a link once the peer has begun a delivery.
pub fn marks_first(l: &Link) -> Marks
    ensures marks { 0 < l.now.credit.credit → with_marks result l.now ≡ record l.now { credit = delivery_begun l.now.credit } }
    ensures sending { result.sending ≡ l.now.sending }
{
    let mut marks = l.marks();
    marks.credit = credit_begun(&marks.credit);
    marks
}
