//! Reads the frame header, the first eight octets of a frame (part 2, 2.3.1).
ghost use Rattle.std.specs.Prelude.{◌≡◌, ◌*◌, ◌≤◌, length, MatchOption, MatchResult};
ghost use Rattle.amqp_frames.specs.Framing.{Shows};
ghost use Rattle.amqp_frames.specs.Header.{BeginsWith, IsHeaderPart, IsHeaderFault};

use crate::fault::FrameFault;

/// The header of an AMQP frame.
#[derive(Clone, Copy, Debug)]
pub struct Header {
    /// The size of the whole frame, in octets.
    pub size: u32,
    /// The data offset: where the contents begin, in words of four octets.
    pub doff: u8,
    pub channel: u16,
}

impl Header {
    /// Returns where the contents begin, in octets from the start of the frame.
    pub fn start(&self) -> usize
        ensures { result ≡ 4 * self.now.doff }
    {
        4 * usize::from(self.doff)
    }
}

/// Reads the header at the start of the octets, or returns `None` if it is not complete.
///
/// # Errors
///
/// The first fault of the header, in the order of [`FrameFault::number`]: in the size once four octets are there, in
/// the rest once eight are.
pub fn examine(max: u32, octets: &[u8]) -> Result<Option<Header>, FrameFault>
    ensures { MatchResult result (λ found. MatchOption found (IsHeaderPart octets.now) (λ header. BeginsWith header max octets.now)) (λ fault. IsHeaderFault fault max octets.now) }
{
    if octets.len() < 4 {
        return Ok(None);
    }
    let size = u32::from_be_bytes([octets[0], octets[1], octets[2], octets[3]]);
    if size < 8 {
        return Err(FrameFault::ShortSize);
    }
    if octets.len() < 8 {
        return Ok(None);
    }
    let doff = octets[4];
    if doff < 2 || size < 4 * u32::from(doff) {
        return Err(FrameFault::BadDoff);
    }
    if max < size {
        return Err(FrameFault::TooBig);
    }
    if octets[5] != 0 {
        return Err(FrameFault::BadKind);
    }
    Ok(Some(Header {
        size,
        doff,
        channel: u16::from_be_bytes([octets[6], octets[7]]),
    }))
}
