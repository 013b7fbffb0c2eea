//! Reads all frames of a piece of a stream (part 2, 2.3).
ghost use Rattle.std.specs.Prelude.{◌≡◌, ◌≢◌, ◌<◌, ◌≤◌, ◌+◌, ◌*◌, ◌++◌, [], ◌∷◌, max, length, is_ok, if◌then◌else◌, IsOk, IfOk, OnOk};
ghost use Rattle.std.specs.Vec.{vec_len, vec_capacity};
ghost use Rattle.amqp_frames.specs.Stream.{FeedsInto, FeedsAll};

use crate::fault::FrameFault;
use crate::frame::Frame;
use crate::framer::Framer;
use std::alloc::AllocError;
use thiserror::Error;

/// The error at which [`Framer::feed_all`] stopped.
#[derive(Clone, Copy, Debug, PartialEq, Eq, Error)]
#[error("{fault}")]
pub struct Stopped {
    pub fault: FrameFault,
    /// How many octets of the piece were taken before.
    pub used: usize,
}

impl Framer {
    /// Takes the whole piece, and appends the frames that it completes to `frames`, in their order.
    ///
    /// # Errors
    ///
    /// The first fault, with the number of octets taken before it, which is less than the length of the piece. The
    /// frames before the fault are in `frames`. Nothing of the frame that shows it is taken from the piece, so after
    /// [`FrameFault::NoMemory`] the octets from there on can be fed again. If no octets were taken, the framer keeps
    /// what it kept before the piece; otherwise it keeps nothing.
    ///
    /// Memory grows with the octets and frames that arrive, whatever size a frame header announces: the framer's at
    /// most to twice the octets (or 512 bytes), and the list's to twice the frames (or four).
    pub fn feed_all(&mut self, piece: &[u8], frames: &mut Vec<Frame>) -> Result<(), Stopped>
        ensures fed { FeedsAll self.old.state piece.now frames.old.items result self.new.state frames.new.items }
        ensures room { self.new.room ≤ max self.old.room (max 512 (2 * (length self.old.state.kept + length piece.now))) }
        ensures list { vec_capacity frames.new ≤ max (vec_capacity frames.old) (max 4 (2 * length frames.new.items)) }
    {
        let mut used = 0;
        loop {
            match self.feed_front(&piece[used..], frames) {
                Ok(more) => used += more,
                Err(fault) => return Err(Stopped { fault, used }),
            }
            if used == piece.len() {
                return Ok(());
            }
        }
    }

    fn feed_front(&mut self, piece: &[u8], frames: &mut Vec<Frame>) -> Result<usize, FrameFault>
        ensures fed { FeedsInto self.old.state piece.now frames.old.items result self.new.state frames.new.items }
        ensures room { self.new.room ≤ max self.old.room (max 512 (2 * (length self.old.state.kept + length piece.now))) }
        ensures list { vec_capacity frames.new ≤ max (vec_capacity frames.old) (max 4 (2 * length frames.new.items)) }
        ensures came { IfOk result (λ used. length self.new.state.kept ≤ length self.old.state.kept + used) }
        ensures empty { piece.now ≡ [] → IsOk result }
        ensures progress { piece.now ≢ [] → IfOk result (λ used. 0 < used) }
    {
        match self.feed(piece) {
            Ok((used, Some(frame))) => match push(frames, frame) {
                Ok(()) => Ok(used),
                Err(_) => {
                    self.unread();
                    Err(FrameFault::NoMemory)
                }
            },
            Ok((used, None)) => Ok(used),
            Err(fault) => Err(fault),
        }
    }
}

fn push(frames: &mut Vec<Frame>, frame: Frame) -> Result<(), AllocError>
    ensures items { frames.new.items ≡ (if is_ok result then frames.old.items ++ frame ∷ [] else frames.old.items) }
    ensures list { vec_capacity frames.new ≤ max (vec_capacity frames.old) (max 4 (2 * length frames.new.items)) }
{
    match make_place(frames) {
        Ok(()) => {
            frames.push_reserved(frame);
            Ok(())
        }
        Err(refused) => {
            drop(frame);
            Err(refused)
        }
    }
}

/// Doubles the capacity of a full list, so that appending is amortised, with at least four places.
fn make_place(frames: &mut Vec<Frame>) -> Result<(), AllocError>
    ensures items { frames.new.items ≡ frames.old.items }
    ensures len { vec_len frames.new ≡ vec_len frames.old }
    ensures enough { OnOk result (vec_len frames.new < vec_capacity frames.new) }
    ensures list { vec_capacity frames.new ≤ max (vec_capacity frames.old) (max 4 (2 * vec_len frames.new)) }
{
    let count = frames.len();
    if count < frames.capacity() {
        return Ok(());
    }
    frames.reserve_exact(count.saturating_mul(2).max(4) - count)
}
