//! `amqp_frames` alone: frames are written into octets, and read out of a stream however it is cut.
ghost use Rattle.std.specs.Prelude.{◌<◌};

use crate::operations::tag_of;
use amqp_frames::{BeginBody, Frame, Framer, Performative, TransferBody, write_frame};
use amqp_types::Boxed;
use anyhow::bail;
use bytes::Bytes;
use std::alloc::Global;
use std::io::Write;

/// The longest frame that either end takes, in octets.
const MAX_FRAME: u32 = 65536;

/// Writes two frames behind one another, and reads them in pieces of three sizes.
pub fn run(lines: &mut Vec<u8>) -> anyhow::Result<()> {
    let stream = write(*lines.allocator())?;
    let shown = show_stream(lines, stream.as_slice());
    drop(stream);
    shown?;
    show_refusal(lines)?;
    show_fault(lines)
}

/// Two frames.
fn write(alloc: Global) -> anyhow::Result<Vec<u8>> {
    let mut stream = Vec::new(alloc);
    append(&mut stream, begin(alloc)?)?;
    append(&mut stream, transfer())?;
    Ok(stream)
}

/// Writes the frame behind what stands in the stream.
fn append(stream: &mut Vec<u8>, frame: Frame) -> anyhow::Result<()> {
    let octets = write_frame(*stream.allocator(), &frame, MAX_FRAME);
    drop(frame);
    stream.extend_from_slice(octets?.as_slice())?;
    Ok(())
}

fn show_stream(lines: &mut Vec<u8>, stream: &[u8]) -> anyhow::Result<()> {
    writeln!(lines, "written: {} octets", stream.len())?;
    for size in [1, 10, 1000] {
        read_in_pieces(lines, stream, size)?;
    }
    Ok(())
}

/// Feeds the stream in pieces of this size, and shows the frames that come out of it.
fn read_in_pieces(lines: &mut Vec<u8>, stream: &[u8], size: usize) -> anyhow::Result<()>
    requires { 0 < size }
{
    let frames = read(*lines.allocator(), stream, size)?;
    let shown = show_frames(lines, size, frames.as_slice());
    drop(frames);
    shown
}

/// The frames of the stream, which is fed in pieces of this size.
fn read(alloc: Global, stream: &[u8], size: usize) -> anyhow::Result<Vec<Frame>>
    requires { 0 < size }
{
    let mut framer = Framer::new(alloc, MAX_FRAME);
    let mut frames = Vec::new(alloc);
    for piece in stream.chunks(size) {
        framer.feed_all(piece, &mut frames)?;
    }
    Ok(frames)
}

fn show_frames(lines: &mut Vec<u8>, size: usize, frames: &[Frame]) -> anyhow::Result<()> {
    let count = frames.len();
    writeln!(lines, "read in pieces of at most {size}: {count} frames")?;
    for frame in frames {
        show_frame(lines, frame)?;
    }
    Ok(())
}

fn show_frame(lines: &mut Vec<u8>, frame: &Frame) -> anyhow::Result<()> {
    let name = match &frame.body {
        Some(Performative::Transfer(body)) => return show_transfer(lines, body, &frame.payload),
        Some(performative) => performative.name(),
        None => "an empty frame",
    };
    Ok(writeln!(lines, "  {name}")?)
}

fn show_transfer(lines: &mut Vec<u8>, body: &TransferBody, payload: &Bytes) -> anyhow::Result<()> {
    let (handle, length) = (body.handle, payload.len());
    Ok(writeln!(
        lines,
        "  transfer on handle {handle}, {length} octets of payload"
    )?)
}

/// A frame that cannot be written is refused before memory is asked for.
fn show_refusal(lines: &mut Vec<u8>) -> anyhow::Result<()> {
    let frame = transfer();
    let written = write_frame(*lines.allocator(), &frame, 16);
    drop(frame);
    let Err(refusal) = written else {
        bail!("the frame has more than 16 octets");
    };
    Ok(writeln!(lines, "for a peer that takes 16 octets: {refusal}")?)
}

/// Octets that are no frame show a fault as soon as can be: here a size of seven, which is less than a frame's header.
fn show_fault(lines: &mut Vec<u8>) -> anyhow::Result<()> {
    let mut framer = Framer::new(*lines.allocator(), MAX_FRAME);
    let fed = framer.feed(&[0, 0, 0, 7]);
    drop(framer);
    let Err(fault) = fed else {
        bail!("no frame has seven octets");
    };
    Ok(writeln!(lines, "octets 00000007: {fault}")?)
}

/// A begin of the session (part 2, 2.7.2). A field that is not mandatory is an option.
fn begin(alloc: Global) -> anyhow::Result<Frame> {
    let body = BeginBody {
        remote_channel: None,
        next_outgoing_id: 0,
        incoming_window: 2048,
        outgoing_window: 2147483647,
        handle_max: None,
        offered_capabilities: None,
        desired_capabilities: None,
        properties: None,
    };
    Ok(Frame {
        channel: 0,
        body: Some(Performative::Begin(Boxed::new(alloc, body)?)),
        payload: Bytes::new(),
    })
}

/// A transfer of a whole delivery (part 2, 2.7.5), with a payload of five octets.
fn transfer() -> Frame {
    let body = TransferBody {
        handle: 0,
        delivery_id: Some(0),
        delivery_tag: Some(tag_of(1)),
        message_format: Some(0),
        settled: Some(true),
        more: None,
        rcv_settle_mode: None,
        state: None,
        resume: None,
        aborted: None,
        batchable: None,
    };
    Frame {
        channel: 0,
        body: Some(Performative::Transfer(body)),
        payload: Bytes::from_static(b"hello"),
    }
}
