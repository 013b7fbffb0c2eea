//! The frame that a feed heard, as numbers.
ghost use Rattle.std.specs.Prelude.{◌≡◌};
ghost use Rattle.amqp_caller.specs.Calls.{frame_told};
ghost use Rattle.amqp_caller.specs.Numbers.{body_handle, body_number, frame_handle, frame_number};

use crate::event::{NONE, id_number};
use amqp_conn::{Conn, Performative};

/// Returns the number of the frame's body: 1 to 9 in the order of the standard, 0 for an empty frame.
fn body_number(body: &Option<Performative>) -> u32
    ensures { result ≡ body_number body.now }
{
    match body {
        None => 0,
        Some(Performative::Open(_)) => 1,
        Some(Performative::Begin(_)) => 2,
        Some(Performative::Attach(_)) => 3,
        Some(Performative::Flow(_)) => 4,
        Some(Performative::Transfer(_)) => 5,
        Some(Performative::Disposition(_)) => 6,
        Some(Performative::Detach(_)) => 7,
        Some(Performative::End(_)) => 8,
        Some(Performative::Close(_)) => 9,
    }
}

/// Returns the handle of a flow.
fn body_handle(body: &Option<Performative>) -> u32
    ensures { result ≡ body_handle body.now }
{
    match body {
        Some(Performative::Flow(flow)) => id_number(flow.handle),
        _ => NONE,
    }
}

/// Returns the number of the frame that the newest step heard, if a step was made.
pub fn number_heard(conn: &Conn, stepped: bool) -> u32
    ensures { result ≡ frame_number (frame_told stepped conn.now) }
{
    if !stepped {
        return 0;
    }
    match conn.heard() {
        Some(frame) => body_number(&frame.body),
        None => 0,
    }
}

/// Returns the handle of the flow that the newest step heard, if a step was made.
pub fn handle_heard(conn: &Conn, stepped: bool) -> u32
    ensures { result ≡ frame_handle (frame_told stepped conn.now) }
{
    if !stepped {
        return NONE;
    }
    match conn.heard() {
        Some(frame) => body_handle(&frame.body),
        None => NONE,
    }
}
