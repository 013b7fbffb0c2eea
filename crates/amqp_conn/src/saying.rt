//! Readers of what the peer sent: its open, its newest frame, and why it ended something.
ghost use Rattle.std.specs.Prelude.{◌≡◌, None, find, option_map};
ghost use Rattle.amqp_conn.specs.Saying.{open_in, close_in, error_of_close, error_in, newest, heard_in, heard_by, given_by, ended_by, is_left_by, is_detach, has_detach, hears_detach, error_heard, detached_by};
ghost use Rattle.amqp_conn.specs.Kinds.{kind_of};

use amqp_frames::{AmqpError, CloseBody, Frame, OpenBody, Performative, Role};
use amqp_journal::entry::{Entry, Step};
use amqp_journal::logged::Logged;
use amqp_rules::reply::Given;
use amqp_types::Boxed;

/// Returns why a frame ends a link, the session or the connection (part 2, 2.8.14): the error of a detach, an end or a
/// close. `None` for other frames, and for those without an error.
pub fn error_of(frame: &Frame) -> Option<&AmqpError>
    ensures { option_map (λ e. e.now) result ≡ error_in frame.now.body }
{
    match &frame.body {
        Some(Performative::Detach(body)) => lent(&body.error),
        Some(Performative::End(body)) => lent(&body.error),
        Some(Performative::Close(body)) => lent(&body.error),
        _ => None,
    }
}

fn lent(error: &Option<Boxed<AmqpError>>) -> Option<&AmqpError>
    ensures { option_map (λ e. e.now) result ≡ error.now }
{
    match error {
        Some(error) => Some(error.get()),
        None => None,
    }
}

/// What a frame concerns: the connection if it is an open or a close, or else the session (part 2, 2.4).
#[derive(Clone, Copy)]
pub(crate) enum Kind {
    /// The frame has no body.
    Empty,
    Open,
    Close,
    Session,
}

pub(crate) fn kind_of(body: &Option<Performative>) -> Kind
    ensures { result ≡ kind_of body.now }
{
    match body {
        None => Kind::Empty,
        Some(Performative::Open(_)) => Kind::Open,
        Some(Performative::Close(_)) => Kind::Close,
        Some(_) => Kind::Session,
    }
}

/// Drops the body as a whole: variant by variant would be costly to prove.
fn none_of<T>(other: Option<Performative>) -> Option<T>
    ensures { result ≡ None }
{
    drop(other);
    None
}

pub(crate) fn open_in(frame: Frame) -> Option<Boxed<OpenBody>>
    ensures { result ≡ open_in frame.body }
{
    let Frame { body, .. } = frame;
    match body {
        Some(Performative::Open(body)) => Some(body),
        other => none_of(other),
    }
}

pub(crate) fn close_in(frame: Frame) -> Option<CloseBody>
    ensures { result ≡ close_in frame.body }
{
    let Frame { body, .. } = frame;
    match body {
        Some(Performative::Close(body)) => Some(body),
        other => none_of(other),
    }
}

pub(crate) fn error_of_close(close: &Option<CloseBody>) -> Option<&AmqpError>
    ensures { option_map (λ e. e.now) result ≡ error_of_close close.now }
{
    match close {
        Some(body) => lent(&body.error),
        None => None,
    }
}

fn newest(logged: &Logged) -> Option<&Entry>
    ensures { option_map (λ e. e.now) result ≡ newest logged.now }
{
    logged.journal().last()
}

fn heard_in(step: &Step) -> Option<&Frame>
    ensures { option_map (λ f. f.now) result ≡ heard_in step.now }
{
    match step {
        Step::Heard(frame) => Some(frame.get()),
        Step::Own(_) | Step::Opened(_) => None,
    }
}

pub(crate) fn heard(logged: &Logged) -> Option<&Frame>
    ensures { option_map (λ f. f.now) result ≡ heard_by (newest logged.now) }
{
    match newest(logged) {
        Some(entry) => heard_in(&entry.step),
        None => None,
    }
}

pub(crate) fn given(logged: &Logged) -> Option<&Given>
    ensures { option_map (λ g. g.now) result ≡ given_by (newest logged.now) }
{
    match newest(logged) {
        Some(entry) => Some(&entry.reply.given),
        None => None,
    }
}

pub(crate) fn ended(logged: &Logged) -> &[(Role, u32)]
    ensures { result.now ≡ ended_by (newest logged.now) }
{
    match newest(logged) {
        Some(entry) => entry.reply.ended.as_slice(),
        None => &[],
    }
}

fn is_left_by(given: &Given, link: u32) -> bool
    ensures { result ≡ is_left_by link given.now }
{
    match given {
        Given::Gone(gone) => *gone == link,
        Given::Parted(parted, _) => *parted == link,
        _ => false,
    }
}

fn is_detach(body: &Option<Performative>) -> bool
    ensures { result ≡ is_detach body.now }
{
    match body {
        Some(Performative::Detach(_)) => true,
        _ => false,
    }
}

fn has_detach(step: &Step) -> bool
    ensures { result ≡ has_detach (heard_in step.now) }
{
    match heard_in(step) {
        Some(frame) => is_detach(&frame.body),
        None => false,
    }
}

/// Returns whether the entry heard the detach that removed the link of this number.
fn hears_detach(entry: &Entry, link: u32) -> bool
    ensures { result ≡ hears_detach link entry.now }
{
    has_detach(&entry.step) && is_left_by(&entry.reply.given, link)
}

fn error_heard(step: &Step) -> Option<&AmqpError>
    ensures { option_map (λ e. e.now) result ≡ error_heard (heard_in step.now) }
{
    match heard_in(step) {
        Some(frame) => error_of(frame),
        None => None,
    }
}

fn detach_of(entries: &[Entry], link: u32) -> Option<&Entry>
    ensures { option_map (λ e. e.now) result ≡ find (hears_detach link) entries.now }
{
    for place in 0..entries.len() {
        if hears_detach(&entries[place], link) {
            return entries.get(place);
        }
    }
    None
}

/// O(n) for n entries that are kept.
pub(crate) fn detached_by(logged: &Logged, link: u32) -> Option<&AmqpError>
    ensures { option_map (λ e. e.now) result ≡ detached_by link logged.now }
{
    match detach_of(logged.journal(), link) {
        Some(entry) => error_heard(&entry.step),
        None => None,
    }
}
