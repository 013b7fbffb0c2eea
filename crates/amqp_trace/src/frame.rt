//! A frame as a line (part 2, 2.3).
ghost use Rattle.std.specs.Prelude.{◌≡◌, ◌++◌, ℕ, length, take, IfOk, OnOk};
ghost use Rattle.amqp_performatives.specs.declared.performative.Performative.{Performative};
ghost use Rattle.amqp_performatives.specs.Bodies.{composite_of, fields_of};
ghost use Rattle.amqp_trace.specs.Names.{field_names};
ghost use Rattle.amqp_trace.specs.Lines.{IsBody, IsLine, arrow, head, dots, length_text, payload_text, header_text, version_text, how_many};

use crate::fields::put_performative;
use crate::text::Line;
use amqp_frames::Frame;
use amqp_performatives::Performative;
use std::alloc::{AllocError, Global};

/// How many octets of a payload are shown.
const SHOWN: usize = 64;

/// Which way octets went.
#[derive(Clone, Copy, Debug)]
pub enum Direction {
    Sent,
    Heard,
}

/// The line of a frame: `AMQP:FRAME:`, its channel, `->` where it was sent or `<-` where it was heard, the performative with the number of its
/// descriptor, its fields by the standard's names, and the length and the first octets of its payload.
pub fn frame_line(alloc: Global, direction: Direction, frame: &Frame) -> Result<Line, AllocError>
    ensures { IfOk result (λ line. IsLine direction frame.now line) }
{
    let mut line = Line::new(alloc);
    put_head(&mut line, direction, frame.channel)?;
    put_body(&mut line, &frame.body)?;
    put_payload(&mut line, frame.payload.as_slice())?;
    Ok(line)
}

/// What stands in front of each frame.
#[tactic(auto, using(std::proofs::Common::append_assoc))]
fn put_head(line: &mut Line, direction: Direction, channel: u16) -> Result<(), AllocError>
    ensures { OnOk result (line.new ≡ line.old ++ head direction channel) }
{
    line.put("AMQP:FRAME:")?;
    line.put_decimal(u64::from(channel))?;
    put_arrow(line, direction)
}

fn put_arrow(line: &mut Line, direction: Direction) -> Result<(), AllocError>
    ensures { OnOk result (line.new ≡ line.old ++ arrow direction) }
{
    match direction {
        Direction::Sent => line.put(" -> "),
        Direction::Heard => line.put(" <- "),
    }
}

fn put_body(line: &mut Line, body: &Option<Performative>) -> Result<(), AllocError>
    ensures { OnOk result (IsBody body.now line.old line.new) }
{
    match body {
        None => line.put("(EMPTY FRAME)"),
        Some(performative) => put_performative(line, performative),
    }
}

/// How many octets the payload has, and the first of them.
fn put_payload(line: &mut Line, payload: &[u8]) -> Result<(), AllocError>
    ensures { OnOk result (line.new ≡ line.old ++ payload_text payload.now) }
{
    if payload.is_empty() {
        return Ok(());
    }
    put_length(line, payload.len())?;
    line.escape(front(payload))?;
    put_dots(line, payload)?;
    Ok(())
}

/// The octets that are shown.
fn front(payload: &[u8]) -> &[u8]
    ensures { result.now ≡ take 64 payload.now }
{
    if payload.len() > SHOWN {
        &payload[..SHOWN]
    } else {
        payload
    }
}

fn put_length(line: &mut Line, count: usize) -> Result<(), AllocError>
    ensures { OnOk result (line.new ≡ line.old ++ length_text count) }
{
    line.put(" (")?;
    line.put_decimal(count as u64)?;
    line.put(") ")
}

fn put_dots(line: &mut Line, payload: &[u8]) -> Result<(), AllocError>
    ensures { OnOk result (line.new ≡ line.old ++ dots payload.now) }
{
    if payload.len() > SHOWN {
        line.put("...")
    } else {
        Ok(())
    }
}

/// A protocol header (part 2, 2.2).
#[derive(Clone, Copy)]
pub struct Protocol {
    /// 0 is AMQP, 2 TLS, 3 SASL.
    pub id: u8,
    pub major: u8,
    pub minor: u8,
    pub revision: u8,
}

/// The line of a protocol header: which protocol it names, and the version.
pub fn header_line(
    alloc: Global,
    direction: Direction,
    protocol: Protocol,
) -> Result<Line, AllocError>
    ensures { IfOk result (λ line. line ≡ header_text direction protocol) }
{
    let mut line = Line::new(alloc);
    line.put("AMQP:HEADER")?;
    put_arrow(&mut line, direction)?;
    line.put("id=")?;
    line.put_decimal(u64::from(protocol.id))?;
    line.put(" version=")?;
    put_version(&mut line, protocol)?;
    Ok(line)
}

fn put_version(line: &mut Line, protocol: Protocol) -> Result<(), AllocError>
    ensures { OnOk result (line.new ≡ line.old ++ version_text protocol) }
{
    line.put_decimal(u64::from(protocol.major))?;
    line.put(".")?;
    line.put_decimal(u64::from(protocol.minor))?;
    line.put(".")?;
    line.put_decimal(u64::from(protocol.revision))?;
    Ok(())
}

/// Each field of a performative has a name, so none is left out of a line for want of one.
pub fn each_field_has_a_name()
    ensures { (p : Performative) → length (field_names (composite_of p)) ≡ how_many (fields_of p) }
{}
