//! Texts that a connection keeps: names, and why the peer ended something.
ghost use Rattle.std.specs.Prelude.{◌≡◌, ◌<◌, Some, None, MatchOption, option_map};
ghost use Rattle.amqp_conn.specs.Saying.{error_heard, heard_by, newest, given_by};
ghost use Rattle.amqp_caller.specs.Reading.{condition_in, description_in, link_at, rejection_in, rejection_of, text_asked, text_number};

use amqp_conn::{AmqpError, Conn, DeliveryState, Given, Link, Text, error_of};

/// A text that a program can ask for.
#[derive(Clone, Copy)]
pub enum TextKind {
    /// The name of a link.
    LinkName,
    /// The peer's container id.
    ContainerId,
    /// The host that the peer's open asks for.
    Hostname,
    /// Why the peer detached or ended, of the frame that the newest step heard.
    HeardCondition,
    HeardDescription,
    /// Why the peer closed the connection.
    CloseCondition,
    CloseDescription,
    /// Why the peer detached a link, as long as that step is not forgotten.
    DetachCondition,
    DetachDescription,
    /// Why the peer rejected the delivery whose outcome the newest step learnt.
    RejectionCondition,
    RejectionDescription,
}

impl TextKind {
    /// Returns the kind of this number: 0 to 10, in the order above.
    pub fn numbered(number: u32) -> Option<TextKind>
        ensures { MatchOption result (10 < number) (λ kind. text_number kind ≡ number) }
    {
        match number {
            0 => Some(TextKind::LinkName),
            1 => Some(TextKind::ContainerId),
            2 => Some(TextKind::Hostname),
            3 => Some(TextKind::HeardCondition),
            4 => Some(TextKind::HeardDescription),
            5 => Some(TextKind::CloseCondition),
            6 => Some(TextKind::CloseDescription),
            7 => Some(TextKind::DetachCondition),
            8 => Some(TextKind::DetachDescription),
            9 => Some(TextKind::RejectionCondition),
            10 => Some(TextKind::RejectionDescription),
            _ => None,
        }
    }
}

fn condition_in<'a>(error: Option<&'a AmqpError>) -> Option<&'a Text>
    ensures { option_map (λ t. t.now) result ≡ condition_in (option_map (λ e. e.now) error.entry) }
{
    match error {
        Some(error) => Some(&error.condition),
        None => None,
    }
}

fn description_in<'a>(error: Option<&'a AmqpError>) -> Option<&'a Text>
    ensures { option_map (λ t. t.now) result ≡ description_in (option_map (λ e. e.now) error.entry) }
{
    match error {
        Some(error) => error.description.as_ref(),
        None => None,
    }
}

/// Returns the link of this number.
pub fn link_at(conn: &Conn, link: u32) -> Option<&Link>
    ensures { option_map (λ l. l.now) result ≡ link_at conn.now link }
{
    conn.logged().endpoint().link_of(link)
}

fn name_of(conn: &Conn, link: u32) -> Option<&Text>
    ensures { option_map (λ t. t.now) result ≡ option_map (λ l. l.name) (link_at conn.now link) }
{
    match link_at(conn, link) {
        Some(found) => Some(found.name()),
        None => None,
    }
}

fn container_of(conn: &Conn) -> Option<&Text>
    ensures { option_map (λ t. t.now) result ≡ option_map (λ b. b.container_id) conn.now.core.peer }
{
    match conn.peer() {
        Some(open) => Some(&open.container_id),
        None => None,
    }
}

fn host_of(conn: &Conn) -> Option<&Text>
    ensures { option_map (λ t. t.now) result ≡ text_asked (Some TextKind.Hostname) 0 conn.now }
{
    match conn.peer() {
        Some(open) => open.hostname.as_ref(),
        None => None,
    }
}

/// Returns the error of the frame that the newest step heard.
fn error_heard(conn: &Conn) -> Option<&AmqpError>
    ensures { option_map (λ e. e.now) result ≡ error_heard (heard_by (newest conn.now.core.log)) }
{
    match conn.heard() {
        Some(frame) => error_of(frame),
        None => None,
    }
}

fn rejection_of(state: &Option<DeliveryState>) -> Option<&AmqpError>
    ensures { option_map (λ e. e.now) result ≡ rejection_of state.now }
{
    match state {
        Some(DeliveryState::Rejected(Some(error))) => Some(error.get()),
        _ => None,
    }
}

/// Returns the error of the rejection that the newest step learnt.
fn rejection_in(conn: &Conn) -> Option<&AmqpError>
    ensures { option_map (λ e. e.now) result ≡ rejection_in (given_by (newest conn.now.core.log)) }
{
    match conn.given() {
        Some(Given::Learned(learned)) => rejection_of(&learned.get().state),
        _ => None,
    }
}

/// Returns the text that is asked for, if there is one. `link` is the number of the link if the text is a link's.
pub fn text_asked(conn: &Conn, kind: Option<TextKind>, link: u32) -> Option<&Text>
    ensures { option_map (λ t. t.now) result ≡ text_asked kind link conn.now }
{
    match kind? {
        TextKind::LinkName => name_of(conn, link),
        TextKind::ContainerId => container_of(conn),
        TextKind::Hostname => host_of(conn),
        TextKind::HeardCondition => condition_in(error_heard(conn)),
        TextKind::HeardDescription => description_in(error_heard(conn)),
        TextKind::CloseCondition => condition_in(conn.ended_by()),
        TextKind::CloseDescription => description_in(conn.ended_by()),
        TextKind::DetachCondition => condition_in(conn.detached_by(link)),
        TextKind::DetachDescription => description_in(conn.detached_by(link)),
        TextKind::RejectionCondition => condition_in(rejection_in(conn)),
        TextKind::RejectionDescription => description_in(rejection_in(conn)),
    }
}
