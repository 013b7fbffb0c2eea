//! Writes a frame.
ghost use Rattle.std.specs.Prelude.{◌≡◌, ◌++◌, Some, IfOk, OnOk};
ghost use Rattle.amqp_types.specs.Canon.{canon};
ghost use Rattle.amqp_performatives.specs.Part.{canonical};
ghost use Rattle.amqp_performatives.specs.Bodies.{part_of};
ghost use Rattle.amqp_frames.specs.Field.{added, header, with_payload};
ghost use Rattle.amqp_frames.specs.Written.{Answers, frame_octets, write_answer, WrittenIsFramed};
ghost use Rattle.amqp_frames.specs.Measuring.{IsListMeasure, IsMeasureOf, listed};

use crate::fault::FrameRefusal;
use crate::frame::Frame;
use crate::measure::Measure;
use crate::measured::{Measured, measure_frame};
use crate::writing::put_list;
use amqp_performatives::Performative;
use amqp_types::WriteFault;
use bytes::Bytes;
use std::alloc::{AllocError, Global};

/// Returns the octets of the frame (part 2, 2.3).
///
/// They are the size, the data offset 2, the type 0, the channel, the canonical encoding of the performative without
/// absent fields at the end, and the payload. The size is computed first, and the octets are written once, into memory
/// of exactly that size.
///
/// # Errors
///
/// In this order: [`FrameRefusal::NotWritable`] if a field holds a value that no reader would find there, a payload
/// comes without a transfer, a value has no encoding, or the size does not fit 32 bits;
/// [`FrameRefusal::FrameTooBig`] if the frame is longer than `max` octets; [`FrameRefusal::NoMemory`] if memory runs
/// out.
pub fn write_frame(alloc: Global, frame: &Frame, max: u32) -> Result<Bytes, FrameRefusal>
    ensures { Answers result (write_answer frame.now max) }
{
    match measure_frame(&frame.body, frame.payload.len(), max) {
        Ok(measured) => match write_measured(alloc, frame, measured) {
            Ok(octets) => Ok(octets),
            Err(_) => Err(FrameRefusal::NoMemory),
        },
        Err(refusal) => Err(refusal),
    }
}

/// Returns the octets of a frame that [`measure_frame`] has measured, as [`write_frame`] does.
///
/// `measured` must be the measure of this frame.
///
/// # Errors
///
/// [`AllocError`] if memory runs out.
pub fn write_measured(alloc: Global, frame: &Frame, measured: Measured) -> Result<Bytes, AllocError>
    requires { IsMeasureOf frame.now measured }
    ensures { IfOk result (λ octets. frame_octets frame.now ≡ Some octets) }
{
    let mut out = Vec::with_capacity(alloc, measured.size as usize)?;
    match put_frame(frame, measured, &mut out) {
        Ok(()) => finish(out),
        Err(_) => Err(AllocError),
    }
}

/// Proves that the octets of a written frame encode that frame. It does nothing at run time.
pub fn written_is_framed()
    ensures { WrittenIsFramed }
{}

/// Appends the frame to the octets. After an error a part of it may have been appended.
pub(crate) fn put_frame(
    frame: &Frame,
    measured: Measured,
    out: &mut Vec<u8>,
) -> Result<(), WriteFault>
    requires { IsMeasureOf frame.now measured }
    ensures { OnOk result (added out.old.items (frame_octets frame.now) ≡ Some out.new.items) }
{
    put_header(measured.size, frame.channel, out)?;
    match &frame.body {
        Some(performative) => {
            put_contents(performative, measured.list, frame.payload.as_slice(), out)
        }
        None => Ok(()),
    }
}

fn put_header(size: u32, channel: u16, out: &mut Vec<u8>) -> Result<(), WriteFault>
    ensures { OnOk result (out.new.items ≡ out.old.items ++ header size channel) }
{
    let [a, b, c, d] = size.to_be_bytes();
    let [e, f] = channel.to_be_bytes();
    out.extend_from_slice(&[a, b, c, d, 2, 0, e, f])?;
    Ok(())
}

fn put_contents(
    performative: &Performative,
    list: Measure,
    payload: &[u8],
    out: &mut Vec<u8>,
) -> Result<(), WriteFault>
    requires { IsListMeasure 30 list (listed (Some performative.now)) }
    ensures { OnOk result (added out.old.items (with_payload (canon (canonical (part_of performative.now))) payload.now) ≡ Some out.new.items) }
{
    let listed = performative.listed();
    put_list(listed.composite(), listed.fields(), list, out)?;
    out.extend_from_slice(payload)?;
    Ok(())
}

fn finish(out: Vec<u8>) -> Result<Bytes, AllocError>
    ensures { IfOk result (λ octets. octets ≡ out.items) }
{
    match Bytes::from_vec(out) {
        Ok(octets) => Ok(octets),
        Err(_) => Err(AllocError),
    }
}
