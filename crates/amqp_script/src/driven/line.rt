//! What a line of the command `conn` says.

use crate::line::{Line, LineFault, Question};
use crate::words::Words;
use amqp_endpoint::op::Op;
use std::alloc::Global;

/// A line that drives a connection.
#[derive(Drop)]
pub enum DrivenLine {
    /// Octets of the peer's: `feed HEX`.
    Feed(Vec<u8>),
    /// Our close: `close`.
    Close,
    /// The octets ended: `lost`.
    Lost,
    /// An operation of the application, as in a script.
    Own(Op),
    Ask(Question),
}

impl DrivenLine {
    /// The line that these octets write, without the newline.
    pub fn read(alloc: Global, octets: &[u8]) -> Result<DrivenLine, LineFault> {
        let mut words = Words::of(octets);
        match words.word()? {
            b"feed" => Ok(DrivenLine::Feed(words.joined_octets(alloc)?)),
            b"close" => ended(words, DrivenLine::Close),
            b"lost" => ended(words, DrivenLine::Lost),
            _ => read_session(alloc, octets),
        }
    }
}

/// The line, where no word is left.
fn ended(words: Words<'_>, line: DrivenLine) -> Result<DrivenLine, LineFault> {
    match words.end() {
        Ok(()) => Ok(line),
        Err(fault) => {
            drop(line);
            Err(fault)
        }
    }
}

/// A line of a script, but for those that stand for octets of the peer's.
fn read_session(alloc: Global, octets: &[u8]) -> Result<DrivenLine, LineFault> {
    match Line::read(alloc, octets) {
        Ok(Line::Own(op)) => Ok(DrivenLine::Own(op)),
        Ok(Line::Ask(question)) => Ok(DrivenLine::Ask(question)),
        Ok(Line::Opened(_)) => Err(LineFault::Bad),
        Ok(Line::Hear(frame)) => {
            drop(frame);
            Err(LineFault::Bad)
        }
        Err(fault) => Err(fault),
    }
}
