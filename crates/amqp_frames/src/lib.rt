//! Reads and writes the frames of AMQP 1.0 (OASIS AMQP 1.0, part 2, 2.3).
//!
//! Frames are written into one buffer, and read from a stream in pieces of any length. The crate does no I/O.
//!
//! - [`Frame`]: a channel, a performative and the payload of a transfer
//! - Reading: [`Framer`] takes the stream in pieces ([`Octets`], lent or shared), by `feed_into`, `feed` or `feed_all`,
//!   and reports a [`FrameFault`] if the octets are not a frame
//! - Writing: [`write_frame`] returns a frame's octets; [`append_frame`] appends them to a buffer, as for a batch;
//!   [`append_head`] appends those before a transfer's payload. The reason for a refusal is a [`FrameRefusal`].
//! - Measuring, without allocation: [`measure_frame`] returns the refusal, or the size of a frame that
//!   [`write_measured`] then writes; [`frame_refusal`] returns only the refusal
//! - Measuring before a body is built, from borrowed parts: [`measure_open`], [`measure_begin`], [`measure_attach`],
//!   [`measure_resuming`], [`measure_disposition`], [`measure_detach`], [`measure_end`]
//! - Laws, proved and without effect at run time: [`written_is_framed`], [`always_written`], [`one_answer`],
//!   [`one_frame`], [`cutting`]
//!
//! | module | contents |
//! |---|---|
//! | `frame`, `fault` | a frame; the errors of reading and of writing |
//! | `framer`, `stream`, `filled`, `octets` | reading one frame, or all frames, of a piece |
//! | `header`, `contents`, `buffer` | the frame header, what follows it, the octets of an unfinished frame |
//! | `written`, `append`, `writing`, `leaf` | writing a frame alone, behind others, by field, by run of octets |
//! | `measured`, `measure`, `lent`, `fair` | the size of a frame, also from borrowed parts; whether it can be written |
//! | `laws` | what octets can be, and that the cuts of a stream make no difference |
#![tactic(auto)]

mod append;
mod buffer;
mod contents;
mod fair;
mod fault;
mod filled;
mod frame;
mod framer;
mod header;
mod laws;
mod leaf;
mod lent;
mod measure;
mod measured;
mod octets;
mod stream;
mod writing;
mod written;

pub use amqp_performatives::{
    AmqpError, AttachBody, BeginBody, CloseBody, DeliveryState, DetachBody, DispositionBody,
    EndBody, FlowBody, OpenBody, Performative, Role, TransferBody,
};
pub use append::{append_frame, append_head};
pub use fair::is_fair_state;
pub use fault::{FrameFault, FrameRefusal};
pub use filled::Filled;
pub use frame::Frame;
pub use framer::Framer;
pub use laws::{always_written, cutting, one_answer, one_frame};
pub use lent::{
    AttachParts, ResumingParts, measure_attach, measure_begin, measure_detach, measure_disposition,
    measure_end, measure_open, measure_resuming,
};
pub use measured::{Measured, frame_refusal, measure_frame};
pub use octets::Octets;
pub use stream::Stopped;
pub use written::{write_frame, write_measured, written_is_framed};
