//! The frames that a connection itself sends: an open and closes.
ghost use Rattle.std.specs.Prelude.{◌≡◌, ◌≤◌, None, Err, IfOk, MatchResult};
ghost use Rattle.amqp_frames.specs.Written.{write_answer};
ghost use Rattle.amqp_frames.specs.Measuring.{IsMeasureOf};
ghost use Rattle.amqp_rules.specs.Sending.{octets_of};
ghost use Rattle.amqp_rules.specs.ViolationAnswer.{error_of};
ghost use Rattle.amqp_conn.specs.Writes.{Writes};
ghost use Rattle.amqp_conn.specs.Octets.{open_body, open_frame, close_frame, condition, framing_condition};

use crate::config::Config;
use crate::fault::ConnFault;
use amqp_frames::{
    AmqpError, CloseBody, Frame, FrameFault, FrameRefusal, Measured, OpenBody, Performative,
    measure_open, write_frame, write_measured,
};
use amqp_performatives::copying::copy_text;
use amqp_types::{Boxed, Text};
use bytes::Bytes;
use std::alloc::{AllocError, Global};

/// The protocol header (part 2, 2.2): AMQP, protocol id 0, version 1.0.0.
pub(crate) const HEADER: [u8; 8] = [0x41, 0x4d, 0x51, 0x50, 0, 1, 0, 0];

/// The most octets of our open: what every peer accepts before its own open is known (part 2, 2.7.1).
const MAX_OPEN: u32 = 512;

fn write(alloc: Global, frame: &Frame, max: u32) -> Result<Bytes, FrameRefusal>
    ensures { Writes frame.now max result }
{
    write_frame(alloc, frame, max)
}

fn open_body(alloc: Global, config: &Config) -> Result<Boxed<OpenBody>, AllocError>
    ensures { IfOk result (λ body. body ≡ open_body config.now) }
{
    let container_id = config.container_id.clone()?;
    let hostname = copy_text(&config.hostname)?;
    Boxed::new(
        alloc,
        OpenBody {
            container_id,
            hostname,
            max_frame_size: Some(config.max_frame),
            channel_max: Some(0),
            idle_time_out: config.idle_time_out,
            outgoing_locales: None,
            incoming_locales: None,
            offered_capabilities: None,
            desired_capabilities: None,
            properties: None,
        },
    )
}

/// Does not allocate, so that settings with which there is no open of 512 octets are refused before memory is needed.
/// Returns the settings again, because it moves them into a body and out of it.
pub(crate) fn measure_ours(config: Config) -> Result<(Config, Measured), FrameRefusal>
    ensures { MatchResult result (λ both. (both.0 ≡ config) × IsMeasureOf (open_frame config) both.1 × (both.1.size ≤ 512)) (λ e. write_answer (open_frame config) 512 ≡ Err e) }
{
    let body = OpenBody {
        container_id: config.container_id,
        hostname: config.hostname,
        max_frame_size: Some(config.max_frame),
        channel_max: Some(0),
        idle_time_out: config.idle_time_out,
        outgoing_locales: None,
        incoming_locales: None,
        offered_capabilities: None,
        desired_capabilities: None,
        properties: None,
    };
    let measured = measure_open(&body, MAX_OPEN)?;
    let same = Config {
        container_id: body.container_id,
        hostname: body.hostname,
        max_frame: config.max_frame,
        idle_time_out: config.idle_time_out,
        first_id: config.first_id,
        window: config.window,
        journal_limit: config.journal_limit,
    };
    Ok((same, measured))
}

pub(crate) fn open_octets(
    alloc: Global,
    config: &Config,
    measured: Measured,
) -> Result<Bytes, AllocError>
    requires { IsMeasureOf (open_frame config.now) measured }
    ensures { IfOk result (λ octets. octets ≡ octets_of (open_frame config.now)) }
{
    let body = open_body(alloc, config)?;
    let frame = Frame {
        channel: 0,
        body: Some(Performative::Open(body)),
        payload: Bytes::new(),
    };
    write_known(alloc, &frame, measured)
}

fn write_known(alloc: Global, frame: &Frame, measured: Measured) -> Result<Bytes, AllocError>
    requires { IsMeasureOf frame.now measured }
    ensures { IfOk result (λ octets. octets ≡ octets_of frame.now) }
{
    write_measured(alloc, frame, measured)
}

pub(crate) fn close_octets(
    alloc: Global,
    error: Option<Boxed<AmqpError>>,
    max: u32,
) -> Result<Bytes, FrameRefusal>
    ensures { Writes (close_frame error) max result }
{
    let frame = Frame {
        channel: 0,
        body: Some(Performative::Close(CloseBody { error })),
        payload: Bytes::new(),
    };
    write(alloc, &frame, max)
}

/// The condition of the close that is sent for the fault (part 2, 2.8.15 and 2.8.16).
fn condition(fault: ConnFault) -> &'static str
    ensures { result.now ≡ condition fault }
{
    match fault {
        ConnFault::Framing(fault) => framing_condition(fault),
        ConnFault::OutOfPlace => "amqp:not-allowed",
        ConnFault::JournalFull => "amqp:resource-limit-exceeded",
        ConnFault::BadHeader => "amqp:connection:framing-error",
        ConnFault::BadChannel => "amqp:connection:framing-error",
        ConnFault::Closed => "amqp:connection:framing-error",
        ConnFault::NoMemory => "amqp:connection:framing-error",
    }
}

fn framing_condition(fault: FrameFault) -> &'static str
    ensures { result.now ≡ framing_condition fault }
{
    match fault {
        FrameFault::BadBody => "amqp:decode-error",
        FrameFault::ShortSize => "amqp:connection:framing-error",
        FrameFault::BadDoff => "amqp:connection:framing-error",
        FrameFault::TooBig => "amqp:connection:framing-error",
        FrameFault::BadKind => "amqp:connection:framing-error",
        FrameFault::NoMemory => "amqp:connection:framing-error",
    }
}

pub(crate) fn last_close(alloc: Global, fault: ConnFault) -> Result<Bytes, AllocError>
    ensures { IfOk result (λ octets. octets ≡ octets_of (close_frame (error_of (condition fault)))) }
{
    let condition = Text::new(alloc, condition(fault))?;
    let error = Boxed::new(
        alloc,
        AmqpError {
            condition,
            description: None,
            info: None,
        },
    )?;
    known_close(alloc, Some(error))
}

pub(crate) fn plain_close(alloc: Global) -> Result<Bytes, AllocError>
    ensures { IfOk result (λ octets. octets ≡ octets_of (close_frame None)) }
{
    known_close(alloc, None)
}

fn known_close(alloc: Global, error: Option<Boxed<AmqpError>>) -> Result<Bytes, AllocError>
    ensures { IfOk result (λ octets. octets ≡ octets_of (close_frame error)) }
{
    match close_octets(alloc, error, MAX_OPEN) {
        Ok(octets) => Ok(octets),
        Err(_) => Err(AllocError),
    }
}
