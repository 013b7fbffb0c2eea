//! What a flow that is heard tells, and what it leaves of the windows and of the credit.
ghost use Rattle.std.specs.Prelude.{◌≡◌, true, false, cond, is_some, Some, MatchOption, MatchResult};
ghost use Rattle.amqp_flow.specs.Windows.{windows_renewed};
ghost use Rattle.amqp_links.specs.Marks.{with_marks};
ghost use Rattle.amqp_steps.specs.Flowing.{credit_ahead, echo_plan, session_after, sends_echo, session_ahead, windows_told_by, IsCreditAfter};
ghost use Rattle.amqp_rules.specs.Flow.{session_part, link_part, asks_echo, echo_body, flow_link, is_ahead_of_link};
ghost use Rattle.amqp_rules.specs.Refusing.{no_memory};

use crate::plan::{Plan, Session, plan_answering, plan_quiet};
use crate::telling::{session_flow, standing_flow};
use amqp_deliveries::Change;
use amqp_flow::flow::{LinkFlow, SessionFlow};
use amqp_flow::receiver::ReceiverCredit;
use amqp_flow::sender::SenderCredit;
use amqp_flow::windows::Windows;
use amqp_frames::{FlowBody, Performative};
use amqp_links::credit::Credit;
use amqp_links::fate::Fate;
use amqp_links::link::Link;
use amqp_links::marks::Marks;
use amqp_rules::reply::Given;
use amqp_rules::violation::Violation;
use std::alloc::Global;

fn session_part(b: &FlowBody) -> SessionFlow
    ensures { result ≡ session_part b.now }
{
    SessionFlow {
        next_incoming_id: b.next_incoming_id,
        incoming_window: b.incoming_window,
        next_outgoing_id: b.next_outgoing_id,
        outgoing_window: b.outgoing_window,
    }
}

fn link_part(b: &FlowBody) -> LinkFlow
    ensures { result ≡ link_part b.now }
{
    LinkFlow {
        delivery_count: b.delivery_count,
        link_credit: b.link_credit,
        drain: b.drain.unwrap_or(false),
    }
}

fn asks_echo(b: &FlowBody) -> bool
    ensures { result ≡ asks_echo b.now }
{
    b.echo.unwrap_or(false)
}

/// The windows, renewed where a flow is sent.
fn renewed_if(sends: bool, mut windows: Windows) -> Windows
    ensures { result ≡ cond sends (windows_renewed windows) windows }
{
    if !sends {
        return windows;
    }
    windows.renew();
    windows
}

/// The windows that the flow tells; none where it counts transfers that were not sent.
fn told_windows(begun: bool, b: &FlowBody, mut windows: Windows) -> Option<Windows>
    ensures { MatchOption result (session_ahead begun b.now windows ≡ true) (λ w. (session_ahead begun b.now windows ≡ false) × (w ≡ windows_told_by begun b.now windows)) }
{
    if !begun {
        windows.on_early_flow(&session_part(b));
        return Some(windows);
    }
    match windows.on_flow(&session_part(b)) {
        Ok(()) => Some(windows),
        Err(_) => None,
    }
}

/// A flow is sent in return.
pub fn sends_echo(session: &Session, b: &FlowBody) -> bool
    ensures { result ≡ sends_echo session.now.begin_sent b.now }
{
    asks_echo(b) && session.begin_sent
}

/// The session after the flow; none where that counts transfers that were not sent.
pub fn heard_session(b: &FlowBody, mut session: Session) -> Option<Session>
    ensures { MatchOption result (session_ahead session.begin_sent b.now session.windows ≡ true) (λ s. (session_ahead session.begin_sent b.now session.windows ≡ false) × (s ≡ session_after b.now session)) }
{
    let windows = told_windows(session.begin_sent, b, session.windows)?;
    session.windows = renewed_if(sends_echo(&session, b), windows);
    Some(session)
}

fn sender_after(ours: bool, b: &FlowBody, mut c: SenderCredit) -> Option<Credit>
    ensures { MatchOption result (credit_ahead ours b.now (Credit.Sending c) ≡ true) (λ n. (credit_ahead ours b.now (Credit.Sending c) ≡ false) × IsCreditAfter ours b.now (Credit.Sending c) n) }
{
    if !ours {
        c.on_early_flow(&link_part(b));
        return Some(Credit::Sending(c));
    }
    match c.on_flow(&link_part(b)) {
        Ok(()) => Some(Credit::Sending(c)),
        Err(_) => None,
    }
}

fn receiver_after(ours: bool, b: &FlowBody, mut c: ReceiverCredit) -> Option<Credit>
    ensures { MatchOption result (credit_ahead ours b.now (Credit.Receiving c) ≡ true) (λ n. (credit_ahead ours b.now (Credit.Receiving c) ≡ false) × IsCreditAfter ours b.now (Credit.Receiving c) n) }
{
    if !ours {
        return Some(Credit::Receiving(c));
    }
    match c.on_flow(&link_part(b)) {
        Ok(()) => Some(Credit::Receiving(c)),
        Err(_) => None,
    }
}

/// The credit after the flow; none where that counts deliveries that did not begin, or gives up more than there is.
fn heard_credit(ours: bool, b: &FlowBody, c: &Credit) -> Option<Credit>
    ensures { MatchOption result (credit_ahead ours b.now c.now ≡ true) (λ n. (credit_ahead ours b.now c.now ≡ false) × IsCreditAfter ours b.now c.now n) }
{
    match c {
        Credit::Sending(c) => sender_after(ours, b, *c),
        Credit::Receiving(c) => receiver_after(ours, b, *c),
    }
}

/// The marks of a link that we have not left, after the flow.
pub fn heard_marks(b: &FlowBody, l: &Link) -> Option<Marks>
    requires theirs { is_some l.now.theirs ≡ true }
    requires stays { l.now.left ≡ false }
    ensures { MatchOption result (is_ahead_of_link b.now (Some l.now) ≡ true) (λ m. (is_ahead_of_link b.now (Some l.now) ≡ false) × (with_marks m l.now ≡ flow_link b.now l.now)) }
{
    let mut marks = l.marks();
    marks.credit = heard_credit(l.is_ours(), b, &marks.credit)?;
    Some(marks)
}

/// What a flow leaves: the session and what becomes of the links; and whether a flow is sent in return, and which.
#[derive(Drop)]
pub struct Flowing {
    pub session: Session,
    pub fate: Fate,
    pub echo: bool,
    pub body: FlowBody,
}

/// The plan of a flow that leaves this.
pub fn plan_echo(alloc: Global, flowing: Flowing) -> Result<Plan, Violation>
    ensures { MatchResult result (λ p. p ≡ echo_plan flowing) (λ e. e ≡ no_memory) }
{
    let Flowing {
        session,
        fate,
        echo,
        body,
    } = flowing;
    if echo {
        let body = Some(Performative::Flow(body));
        plan_answering(alloc, session, fate, Change::Stay, body, Given::Nothing)
    } else {
        drop(body);
        Ok(plan_quiet(session, fate, Change::Stay, Given::Nothing))
    }
}

/// The flow in return, of a link with these marks: where it is attached, its own.
pub fn flow_in_return(windows: &Windows, l: &Link, marks: &Marks) -> FlowBody
    requires { marks.now.left ≡ l.now.left }
    ensures { result ≡ echo_body windows.now (Some (with_marks marks.now l.now)) }
{
    if l.is_attached() {
        standing_flow(windows, l.our_handle(), marks)
    } else {
        session_flow(windows)
    }
}
