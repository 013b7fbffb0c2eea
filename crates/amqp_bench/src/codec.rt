//! Frames written and read in memory.

use amqp_frames::{
    DispositionBody, Filled, FlowBody, Frame, FrameFault, Framer, Octets, Performative, Role,
    TransferBody, append_frame, write_frame,
};
use amqp_types::Tag;
use bytes::Bytes;
use std::alloc::Global;
use std::io::Write;
use std::rt::Clock;
use std::time::{Duration, Instant};

/// The longest frame.
const MAX_FRAME: u32 = 65536;

/// How many octets of frames stand behind one another before they are let go.
const BATCH: usize = 60000;

/// Writes and reads each of the three frames so many times, or does one of the six alone: 1 a transfer written, 2 read, 3 and 4 a flow, 5 and 6
/// a disposition.
pub fn run_codec<R, W>(rt: &R, rounds: u32, part: Option<u32>, writer: &mut W) -> anyhow::Result<()>
where
    R: AllocGlobal + Eprint + Clock,
    W: Write,
{
    let wanted = |number: u32| part.is_none() || part == Some(number);
    let frame = transfer(rt.alloc())?;
    measure(rt, "transfer", frame, rounds, wanted(1), wanted(2), writer)?;
    measure(rt, "flow", flow(), rounds, wanted(3), wanted(4), writer)?;
    let frame = disposition();
    measure(
        rt,
        "disposition",
        frame,
        rounds,
        wanted(5),
        wanted(6),
        writer,
    )
}

fn measure<R, W>(
    rt: &R,
    name: &str,
    frame: Frame,
    rounds: u32,
    writes: bool,
    reads: bool,
    writer: &mut W,
) -> anyhow::Result<()>
where
    R: AllocGlobal + Eprint + Clock,
    W: Write,
{
    let mut measured = Ok(());
    if writes {
        measured = measure_writing(rt, name, &frame, rounds, writer);
    }
    if reads && measured.is_ok() {
        measured = measure_reading(rt, name, &frame, rounds, writer);
    }
    drop(frame);
    measured
}

fn measure_writing<R, W>(
    rt: &R,
    name: &str,
    frame: &Frame,
    rounds: u32,
    writer: &mut W,
) -> anyhow::Result<()>
where
    R: AllocGlobal + Eprint + Clock,
    W: Write,
{
    let begun = Instant::now(rt)?;
    let written = write_many(rt.alloc(), frame, rounds)?;
    let took = begun.elapsed(rt)?;
    writeln!(writer, "{name} written {rounds} octets {written}")?;
    writer.flush()?;
    tell(rt, name, "written", rounds, took)
}

fn measure_reading<R, W>(
    rt: &R,
    name: &str,
    frame: &Frame,
    rounds: u32,
    writer: &mut W,
) -> anyhow::Result<()>
where
    R: AllocGlobal + Eprint + Clock,
    W: Write,
{
    let alloc = rt.alloc();
    let octets = write_frame(alloc, frame, MAX_FRAME)?;
    let begun = Instant::now(rt)?;
    let (frames, payload) = read_many(alloc, &octets, rounds)?;
    let took = begun.elapsed(rt)?;
    writeln!(writer, "{name} read {frames} payload {payload}")?;
    writer.flush()?;
    tell(rt, name, "read", rounds, took)
}

/// How many octets were written in all, one frame behind the other up to a batch.
fn write_many(alloc: Global, frame: &Frame, rounds: u32) -> anyhow::Result<u64> {
    let mut octets: u64 = 0;
    let mut batch: Vec<u8> = Vec::new(alloc);
    for _ in 0..rounds {
        append_frame(frame, MAX_FRAME, &mut batch)?;
        if batch.len() > BATCH {
            octets = octets.wrapping_add(batch.len() as u64);
            batch.clear();
        }
    }
    Ok(octets.wrapping_add(batch.len() as u64))
}

/// How many frames were read into one slot, and how many octets of payload they have.
fn read_many(alloc: Global, octets: &Bytes, rounds: u32) -> anyhow::Result<(u64, u64)> {
    let mut slot = Frame::empty();
    let read = read_slot(alloc, octets, rounds, &mut slot);
    drop(slot);
    Ok(read?)
}

fn read_slot(
    alloc: Global,
    octets: &Bytes,
    rounds: u32,
    slot: &mut Frame,
) -> Result<(u64, u64), FrameFault> {
    let mut framer = Framer::new(alloc, MAX_FRAME);
    let piece = Octets::shared(octets, 0);
    let mut frames: u64 = 0;
    let mut payload: u64 = 0;
    for _ in 0..rounds {
        if let Filled::Whole(_) = framer.feed_into(&piece, slot)? {
            frames = frames.wrapping_add(1);
            payload = payload.wrapping_add(slot.payload.len() as u64);
        }
    }
    Ok((frames, payload))
}

/// Tells the time of one frame, and how many there are in a second.
fn tell<R>(rt: &R, name: &str, way: &str, rounds: u32, took: Duration) -> anyhow::Result<()>
where
    R: Eprint,
{
    let nanoseconds = took.as_nanos().max(1);
    let tenths = nanoseconds.saturating_mul(10) / rounds.max(1) as u128;
    let each_second = (rounds as u128).saturating_mul(1000000000) / nanoseconds;
    eprintln!(rt;
        "{name} {way}: {}.{} ns a frame, {each_second} a second",
        tenths / 10,
        tenths % 10
    )?;
    Ok(())
}

/// A settled delivery of 100 octets.
fn transfer(alloc: Global) -> anyhow::Result<Frame> {
    let tag = Tag::new(&[0, 0, 0, 7]);
    let payload = Bytes::from_vec([0x78; 100].to_vec(alloc)?)?;
    Ok(Frame {
        channel: 0,
        body: Some(Performative::Transfer(TransferBody {
            handle: 0,
            delivery_id: Some(1000),
            delivery_tag: tag,
            message_format: Some(0),
            settled: Some(true),
            more: None,
            rcv_settle_mode: None,
            state: None,
            resume: None,
            aborted: None,
            batchable: None,
        })),
        payload,
    })
}

fn flow() -> Frame {
    Frame {
        channel: 0,
        body: Some(Performative::Flow(FlowBody {
            next_incoming_id: Some(1000),
            incoming_window: 2048,
            next_outgoing_id: 2000,
            outgoing_window: 2147483647,
            handle: Some(0),
            delivery_count: Some(1000),
            link_credit: Some(100),
            available: Some(0),
            drain: Some(false),
            echo: None,
            properties: None,
        })),
        payload: Bytes::new(),
    }
}

fn disposition() -> Frame {
    Frame {
        channel: 0,
        body: Some(Performative::Disposition(DispositionBody {
            role: Role::Receiver,
            first: 1000,
            last: Some(1099),
            settled: Some(true),
            state: Some(amqp_frames::DeliveryState::Accepted),
            batchable: None,
        })),
        payload: Bytes::new(),
    }
}
