//! Reads frames from octets that arrive in pieces (part 2, 2.3).
ghost use Rattle.std.specs.Prelude.{◌≡◌, ◌≢◌, ◌≤◌, ◌<◌, ◌*◌, ◌++◌, [], ℕ, List, Some, None, Ok, Err, MatchOption, MatchResult, IsSome, IfOk, IfSome, OnOk, OnErr, ◌+◌, length, take, drop, min, max};
ghost use Rattle.amqp_frames.specs.Framing.{IsUnfinished, AreContents, size_of};
ghost use Rattle.amqp_frames.specs.Header.{BeginsWith, IsHeaderPart, IsHeaderFault};
ghost use Rattle.amqp_frames.specs.Contents.{AreNoContents};
ghost use Rattle.amqp_frames.specs.Framer.{Feeds, Roomy};
ghost use Rattle.amqp_frames.specs.Slots.{FeedsSlot, RoomySlot, used_in};
ghost use Rattle.std.specs.Bool.{OnTrue};

use crate::buffer::Buffer;
use crate::contents::{front_fault, read_behind, read_contents};
use crate::fault::FrameFault;
use crate::filled::Filled;
use crate::frame::Frame;
use crate::header::{Header, examine};
use crate::octets::Octets;
use std::alloc::{AllocError, Global};
use std::marker::Model;

/// The standard's MIN-MAX-FRAME-SIZE (part 2, 2.8.19): every peer accepts frames of at most this many octets.
const MIN_MAX_FRAME_SIZE: usize = 512;

/// Reads the frames of a stream whose octets arrive in pieces of any length.
///
/// The framer keeps the octets of the next frame until the frame is complete. Its memory grows with the octets that
/// arrive, whatever size a frame header announces: at most to 512 bytes, or to twice the octets that came of one frame.
#[derive(Debug)]
pub struct Framer {
    max_size: u32,
    /// The octets of the next frame; if `is_done`, octets of the frame that was returned last.
    buffer: Buffer,
    is_done: bool,
    /// How many octets of the buffer `unread` keeps.
    before: Option<usize>,
}

// By hand, so that a crate that owns one does not prove the drops of its parts again.
impl Drop for Framer {
    fn drop(self) {
        let Framer {
            max_size: _,
            buffer,
            is_done: _,
            before: _,
        } = self;
        drop(buffer);
    }
}

impl Model for Framer {
    ghost use Rattle.std.specs.Prelude.{[], if◌then◌else◌, take, option_map};
    ghost use Rattle.amqp_frames.specs.Framer.{FramerView, IsSound};

    ghost Value = { FramerView };

    ghost view = { λ f. record { state = record { max_size = f.max_size; kept = (if f.is_done then [] else f.buffer.octets); before = option_map (λ n. take n f.buffer.octets) f.before }; room = f.buffer.room } };

    ghost invariant = { λ f. IsSound f.max_size f.buffer.room (if f.is_done then [] else f.buffer.octets) (option_map (λ n. take n f.buffer.octets) f.before) };
}

impl Framer {
    /// Creates a framer that accepts frames of at most `max_size` octets. It does not allocate.
    pub fn new(alloc: Global, max_size: u32) -> Framer
        ensures { result ≡ record { state = record { max_size = max_size; kept = []; before = None }; room = 0 } }
    {
        Framer {
            max_size,
            buffer: Buffer::new(alloc),
            is_done: false,
            before: None,
        }
    }

    /// Takes octets of the piece, at most to the end of one frame.
    ///
    /// Returns how many octets it took, and the frame if they complete one. Without a frame it took the whole piece.
    /// The payload is copied; [`feed_into`](Framer::feed_into) can share it instead.
    ///
    /// # Errors
    ///
    /// The first [`FrameFault`] that the octets show, as soon as they show it, or [`FrameFault::NoMemory`]. The framer
    /// still keeps what it kept before.
    pub fn feed(&mut self, piece: &[u8]) -> Result<(usize, Option<Frame>), FrameFault>
        ensures fed { Feeds self.old.state piece.now result self.new.state }
        ensures room { Roomy self.old piece.now result self.new }
        ensures empty { piece.now ≡ [] → result ≡ Ok (0, None) }
        ensures progress { piece.now ≢ [] → IfOk result (λ fed. 0 < fed.0) }
    {
        let mut slot = Frame::empty();
        match self.feed_into(&Octets::lent(piece), &mut slot) {
            Ok(Filled::Whole(used)) => Ok((used, Some(slot))),
            Ok(Filled::Part(used)) => {
                drop(slot);
                Ok((used, None))
            }
            Err(fault) => {
                drop(slot);
                Err(fault)
            }
        }
    }

    /// Takes octets of the piece, at most to the end of one frame, and leaves a complete frame in `slot`.
    ///
    /// Returns [`Filled::Whole`] if `slot` holds the frame. After [`Filled::Part`], which takes all octets, and after
    /// an error, `slot` may hold anything.
    ///
    /// A frame that lies whole in the octets is read in place. Its payload is a slice of shared octets, which it keeps
    /// alive, or one copy of lent octets. This also holds for a payload that lies whole in the octets behind a kept
    /// performative, if at most 512 octets are kept.
    ///
    /// # Errors
    ///
    /// A [`FrameFault`] as soon as the octets show it: in the size once four octets of the frame are there, in the rest
    /// of the header once eight are, in the body once the frame is complete. [`FrameFault::NoMemory`] if memory runs
    /// out and the octets show no fault. After an error the framer still keeps what it kept before.
    #[inline(always)]
    pub fn feed_into(&mut self, octets: &Octets<'_>, slot: &mut Frame) -> Result<Filled, FrameFault>
        ensures fed { FeedsSlot self.old.state octets.now result slot.new self.new.state }
        ensures room { RoomySlot self.old octets.now result slot.new self.new }
        ensures empty { octets.now ≡ [] → result ≡ Ok (Filled.Part 0) }
        ensures progress { octets.now ≢ [] → IfOk result (λ filled. 0 < used_in filled) }
    {
        self.feed_piece(octets.as_slice(), octets, slot)
    }

    /// Takes the slice beside the octets, because it is passed in registers: a first read from an `Octets` in memory
    /// waits for its stores.
    fn feed_piece(
        &mut self,
        piece: &[u8],
        octets: &Octets<'_>,
        slot: &mut Frame,
    ) -> Result<Filled, FrameFault>
        requires same { piece.now ≡ octets.now }
        ensures fed { FeedsSlot self.old.state octets.now result slot.new self.new.state }
        ensures room { RoomySlot self.old octets.now result slot.new self.new }
        ensures empty { octets.now ≡ [] → result ≡ Ok (Filled.Part 0) }
        ensures progress { octets.now ≢ [] → IfOk result (λ filled. 0 < used_in filled) }
    {
        match self.whole_front(piece) {
            Some(header) => self.finish_in_place(header, piece, octets, 0, slot),
            None => self.feed_apart(octets, slot),
        }
    }

    #[inline(always)]
    fn whole_front(&self, piece: &[u8]) -> Option<Header>
        ensures none { IfSome result (λ _. self.now.state.kept ≡ []) }
        ensures begins { IfSome result (λ header. BeginsWith header self.now.state.max_size (self.now.state.kept ++ piece.now)) }
        ensures whole { IfSome result (λ header. header.size ≤ length piece.now) }
    {
        if piece.is_empty() || !self.kept().is_empty() {
            return None;
        }
        match examine(self.max_size, piece) {
            Ok(Some(header)) => {
                if piece.len() < header.size as usize {
                    return None;
                }
                Some(header)
            }
            _ => None,
        }
    }

    /// Also handles kept octets, a frame that does not end in this piece, and octets that show a fault.
    #[inline(never)]
    fn feed_apart(&mut self, octets: &Octets<'_>, slot: &mut Frame) -> Result<Filled, FrameFault>
        ensures fed { FeedsSlot self.old.state octets.now result slot.new self.new.state }
        ensures room { RoomySlot self.old octets.now result slot.new self.new }
        ensures empty { octets.now ≡ [] → result ≡ Ok (Filled.Part 0) }
        ensures progress { octets.now ≢ [] → IfOk result (λ filled. 0 < used_in filled) }
    {
        let piece = octets.as_slice();
        if piece.is_empty() {
            self.before = Some(self.kept().len());
            return Ok(Filled::Part(0));
        }
        match examine_front(self.max_size, self.kept(), piece) {
            Err(fault) => Err(fault),
            Ok(None) => self.keep(octets, 8),
            Ok(Some(header)) => self.take(header, octets, slot),
        }
    }

    /// Returns the number of octets that are kept of an unfinished frame.
    pub fn pending(&self) -> usize
        ensures { result ≡ length self.now.state.kept }
    {
        self.kept().len()
    }

    /// Returns the size of the framer's memory in bytes.
    ///
    /// It is at most 512, or twice the most octets that ever arrived of one frame that was cut.
    pub fn room(&self) -> usize
        ensures { result ≡ self.now.room }
    {
        self.buffer.room()
    }

    fn kept(&self) -> &[u8]
        ensures value { result.now ≡ self.now.state.kept }
        ensures unfinished { IsUnfinished self.now.state.max_size self.now.state.kept }
    {
        if self.is_done {
            &[]
        } else {
            self.buffer.as_slice()
        }
    }

    /// Keeps octets that do not complete the next frame. `size` is that of the frame, or 8 if its header is unfinished.
    fn keep(&mut self, octets: &Octets<'_>, size: usize) -> Result<Filled, FrameFault>
        requires unfinished { IsUnfinished self.old.state.max_size (self.old.state.kept ++ octets.now) }
        requires within { length (self.old.state.kept ++ octets.now) ≤ size }
        requires size { 8 ≤ length (self.old.state.kept ++ octets.now) → size_of (self.old.state.kept ++ octets.now) ≤ size }
        ensures fed { (slot : Frame) → FeedsSlot self.old.state octets.now result slot self.new.state }
        ensures room { (slot : Frame) → RoomySlot self.old octets.now result slot self.new }
    {
        let piece = octets.as_slice();
        let count = self.kept().len();
        let Ok(()) = make_room(&mut self.buffer, count + piece.len(), size) else {
            return Err(FrameFault::NoMemory);
        };
        self.buffer.truncate(count);
        self.is_done = false;
        self.before = Some(count);
        self.buffer.append(piece);
        Ok(Filled::Part(piece.len()))
    }

    fn take(
        &mut self,
        header: Header,
        octets: &Octets<'_>,
        slot: &mut Frame,
    ) -> Result<Filled, FrameFault>
        requires { BeginsWith header self.old.state.max_size (self.old.state.kept ++ octets.now) }
        ensures fed { FeedsSlot self.old.state octets.now result slot.new self.new.state }
        ensures room { RoomySlot self.old octets.now result slot.new self.new }
    {
        let piece = octets.as_slice();
        let count = self.kept().len();
        let size = header.size as usize;
        let missing = size - count;
        if piece.len() < missing {
            return self.keep(octets, size);
        }
        if count <= header.start() {
            return self.finish_in_place(header, piece, octets, count, slot);
        }
        if self.reads_behind(header, octets, missing, slot) {
            self.before = Some(count);
            self.is_done = true;
            return Ok(Filled::Whole(missing));
        }
        self.finish(header, octets, missing, slot)
    }

    /// Reads a frame whose contents all lie in the octets; `count` octets of its header are kept.
    #[inline(always)]
    fn finish_in_place(
        &mut self,
        header: Header,
        piece: &[u8],
        octets: &Octets<'_>,
        count: usize,
        slot: &mut Frame,
    ) -> Result<Filled, FrameFault>
        requires same { piece.now ≡ octets.now }
        requires begins { BeginsWith header self.old.state.max_size (self.old.state.kept ++ octets.now) }
        requires kept { count ≡ length self.old.state.kept }
        requires whole { header.size ≤ count + length octets.now }
        requires place { count ≤ 4 * header.doff }
        ensures fed { FeedsSlot self.old.state octets.now result slot.new self.new.state }
        ensures room { RoomySlot self.old octets.now result slot.new self.new }
    {
        let missing = header.size as usize - count;
        match read_contents(
            self.buffer.allocator(),
            header.channel,
            piece,
            octets,
            header.start() - count,
            missing,
            slot,
        ) {
            Ok(()) => {
                self.before = Some(count);
                self.is_done = true;
                Ok(Filled::Whole(missing))
            }
            Err(fault) => Err(fault),
        }
    }

    /// Reads a frame whose kept octets end with a transfer's performative, and returns whether it did. Nothing is
    /// joined, and the payload is read where it lies. If more than 512 octets are kept, the frame was most likely cut
    /// within its payload, and would be read twice.
    #[inline(never)]
    fn reads_behind(
        &self,
        header: Header,
        octets: &Octets<'_>,
        missing: usize,
        slot: &mut Frame,
    ) -> bool
        requires whole { missing ≤ length octets.now }
        requires place { 4 * header.doff < length self.now.state.kept }
        ensures { OnTrue result ((slot.new.channel ≡ header.channel) × AreContents slot.new.body slot.new.payload (drop (4 * header.doff) self.now.state.kept ++ take missing octets.now)) }
    {
        let kept = self.kept();
        if kept.len() > MIN_MAX_FRAME_SIZE {
            return false;
        }
        let head = &kept[header.start()..];
        let alloc = self.buffer.allocator();
        read_behind(alloc, header.channel, head, octets, missing, slot)
    }

    #[inline(never)]
    fn finish(
        &mut self,
        header: Header,
        octets: &Octets<'_>,
        missing: usize,
        slot: &mut Frame,
    ) -> Result<Filled, FrameFault>
        requires begins { BeginsWith header self.old.state.max_size (self.old.state.kept ++ octets.now) }
        requires size { length self.old.state.kept + missing ≡ header.size }
        requires whole { missing ≤ length octets.now }
        requires place { 4 * header.doff < length self.old.state.kept }
        ensures fed { FeedsSlot self.old.state octets.now result slot.new self.new.state }
        ensures room { RoomySlot self.old octets.now result slot.new self.new }
    {
        let piece = octets.as_slice();
        let count = self.kept().len();
        let Ok(()) = self.buffer.reserve(header.size as usize) else {
            return Err(front_fault(&self.buffer.as_slice()[header.start()..], &piece[..missing]));
        };
        self.buffer.append(&piece[..missing]);
        let joined = self.buffer.as_slice();
        match read_contents(
            self.buffer.allocator(),
            header.channel,
            joined,
            &Octets::lent(joined),
            header.start(),
            header.size as usize,
            slot,
        ) {
            Ok(()) => {
                self.before = Some(count);
                self.is_done = true;
                Ok(Filled::Whole(missing))
            }
            Err(fault) => {
                self.buffer.truncate(count);
                Err(fault)
            }
        }
    }

    /// Restores what the framer kept before the last successful feed.
    ///
    /// Requires a successful feed since the framer was created and since the last `unread`. The octets of that feed can
    /// then be fed again. The cost is constant, and the memory is kept.
    pub fn unread(&mut self)
        requires { IsSome self.old.state.before }
        ensures { IfSome self.old.state.before (λ octets. self.new ≡ record { state = record { max_size = self.old.state.max_size; kept = octets; before = None }; room = self.old.room }) }
    {
        if let Some(count) = self.before {
            self.buffer.truncate(count);
            self.is_done = false;
            self.before = None;
        }
    }
}

/// Reserves a short frame whole, and a long one in steps, so that the size in a header alone costs at most 512 bytes.
fn make_room(buffer: &mut Buffer, count: usize, size: usize) -> Result<(), AllocError>
    requires { count ≤ size }
    ensures octets { buffer.new.octets ≡ buffer.old.octets }
    ensures more { buffer.old.room ≤ buffer.new.room }
    ensures enough { OnOk result (count ≤ buffer.new.room) }
    ensures short { OnOk result (min size 512 ≤ buffer.new.room) }
    ensures bounded { buffer.new.room ≤ max buffer.old.room (max 512 (2 * count)) }
    ensures refused { OnErr result (buffer.new.room ≡ buffer.old.room) }
{
    if count.max(size.min(MIN_MAX_FRAME_SIZE)) <= buffer.room() {
        return Ok(());
    }
    let room = count.saturating_mul(2).max(MIN_MAX_FRAME_SIZE).min(size);
    buffer.reserve(room)
}

/// Examines the header across the kept octets and the piece, without a copy if none are kept.
fn examine_front(max: u32, kept: &[u8], piece: &[u8]) -> Result<Option<Header>, FrameFault>
    ensures { MatchResult result (λ found. MatchOption found (IsHeaderPart (kept.now ++ piece.now)) (λ header. BeginsWith header max (kept.now ++ piece.now))) (λ fault. IsHeaderFault fault max (kept.now ++ piece.now)) }
{
    if kept.is_empty() {
        return examine(max, piece);
    }
    let (head, count) = first_octets(kept, piece);
    match examine(max, &head[..count]) {
        Ok(Some(header)) => Ok(Some(header)),
        Ok(None) => Ok(None),
        Err(fault) => Err(fault),
    }
}

fn first_octets(kept: &[u8], piece: &[u8]) -> ([u8; 8], usize)
    ensures octets { take result.1 result.0 ≡ take 8 (kept.now ++ piece.now) }
    ensures within { result.1 ≤ 8 }
{
    let mut head = [0; 8];
    let from_kept = kept.len().min(8);
    let from_piece = piece.len().min(8 - from_kept);
    head[..from_kept].copy_from_slice(&kept[..from_kept]);
    head[from_kept..from_kept + from_piece].copy_from_slice(&piece[..from_piece]);
    (head, from_kept + from_piece)
}
