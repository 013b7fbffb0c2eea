//! What no clause says of a framer: octets of known frames, however they are cut. A frame is let go in the helper that feeds its octets, and a framer in
//! the helper that makes it, which lends it to what asks it: a test holds octets and answers alone.

use crate::frames::{EACH, T, long_frame};
use amqp_frames::*;
use amqp_halves::{Found, find_performative};
use std::alloc::Global;

/// Octets, and what a framer tells of them.
const FAULTS: &[(&[u8], FrameFault)] = &[
    (b"\x00\x00\x00\x07", FrameFault::ShortSize),
    (b"\x00\x00\x00\x08\x01\x00\x00\x00", FrameFault::BadDoff),
    (b"\x00\x01\x00\x01\x02\x00\x00\x00", FrameFault::TooBig),
    (b"\x00\x00\x00\x08\x02\x01\x00\x00", FrameFault::BadKind),
    (b"\x00\x00\x00\x09\x02\x00\x00\x00\xff", FrameFault::BadBody),
    (
        b"\x00\x00\x00\x0d\x02\x00\x00\x00\x00\x53\x18\x45\x00",
        FrameFault::BadBody,
    ),
];

/// How many octets of these a framer takes, and whether they end a frame.
fn fed(framer: &mut Framer, octets: &[u8]) -> Result<(usize, bool), FrameFault> {
    match framer.feed(octets) {
        Ok((used, whole)) => {
            let is_whole = whole.is_some();
            drop(whole);
            Ok((used, is_whole))
        }
        Err(fault) => Err(fault),
    }
}

/// The same, and then they are put back.
fn fed_and_unread(framer: &mut Framer, octets: &[u8]) -> Result<(usize, bool), FrameFault> {
    match framer.feed(octets) {
        Ok((used, whole)) => {
            framer.unread();
            let is_whole = whole.is_some();
            drop(whole);
            Ok((used, is_whole))
        }
        Err(fault) => Err(fault),
    }
}

/// Whether the first octets of a transfer, which are put back, leave nothing behind, and the whole of it comes again.
fn comes_again(framer: &mut Framer) -> bool {
    let first = b"\x00\x00\x00\x1b\x02\x00\x00\x00\x00\x53";
    fed_and_unread(framer, first) == Ok((10, false))
        && framer.pending() == 0
        && fed_and_unread(framer, T) == Ok((27, true))
        && fed(framer, T) == Ok((27, true))
}

/// Whether the octets of a transfer that come one by one end one frame, and none is left over.
fn is_ended_by_each(framer: &mut Framer) -> bool {
    let mut frames = 0u32;
    for octet in T {
        match fed(framer, &[*octet]) {
            Ok((_, true)) => frames = frames.wrapping_add(1),
            Ok(_) => continue,
            Err(_) => return false,
        }
    }
    frames == 1 && framer.pending() == 0
}

/// Whether a framer takes twenty pieces of a long frame, and asks for twice what came at most.
fn is_long_taken(framer: &mut Framer) -> bool {
    let piece = [0u8; 700];
    for _ in 0..20_u32 {
        if fed(framer, &piece) != Ok((700, false))
            || framer.room() > framer.pending().saturating_mul(2)
        {
            return false;
        }
    }
    true
}

/// Whether a framer asks for no room for a frame that lies whole in the piece, and then for what came of a long one.
fn asks_for_what_came(framer: &mut Framer) -> bool {
    fed(framer, T) == Ok((27, true))
        && framer.room() == 0
        && fed(framer, b"\x80\x00\x00\x00\x02\x00\x00\x00") == Ok((8, false))
        && is_long_taken(framer)
}

/// How many frames a piece gives, and what stops it.
fn counted(alloc: Global, framer: &mut Framer, piece: &[u8]) -> (usize, Result<(), Stopped>) {
    let mut frames = Vec::new(alloc);
    let stopped = framer.feed_all(piece, &mut frames);
    let count = frames.len();
    drop(frames);
    (count, stopped)
}

/// Whether a piece gives two frames and the beginning of one, the next one its end, and none nothing.
fn are_all_given(alloc: Global, framer: &mut Framer) -> bool {
    let piece =
        b"\x00\x00\x00\x0c\x02\x00\x00\x00\x00\x53\x17\x45\x00\x00\x00\x08\x02\x00\x00\x00\x00\x00\x00\x0c\x02\x00";
    counted(alloc, framer, piece) == (2, Ok(()))
        && framer.pending() == 6
        && counted(alloc, framer, b"\x00\x00\x00\x53\x18\x45") == (1, Ok(()))
        && framer.pending() == 0
        && counted(alloc, framer, &[]) == (0, Ok(()))
}

/// Whether a frame comes, and then the fault behind it; nothing is kept.
fn is_fault_told_behind(alloc: Global, framer: &mut Framer) -> bool {
    let stopped = Stopped {
        fault: FrameFault::ShortSize,
        used: 8,
    };
    let piece = b"\x00\x00\x00\x08\x02\x00\x00\x00\x00\x00\x00\x07\x02\x00\x00\x00";
    counted(alloc, framer, piece) == (1, Err(stopped)) && framer.pending() == 0
}

/// What is asked of a framer.
enum Asked {
    ComesAgain,
    EndedByEach,
    AsksForWhatCame,
    AllGiven,
    FaultBehind,
}

/// How long its frames may be, and what is asked of it.
const ASKED: &[(u32, Asked)] = &[
    (65536, Asked::ComesAgain),
    (65536, Asked::EndedByEach),
    (u32::MAX, Asked::AsksForWhatCame),
    (65536, Asked::AllGiven),
    (65536, Asked::FaultBehind),
];

fn is_answered(alloc: Global, max: u32, asked: &Asked) -> bool {
    let mut framer = Framer::new(alloc, max);
    let answer = match asked {
        Asked::ComesAgain => comes_again(&mut framer),
        Asked::EndedByEach => is_ended_by_each(&mut framer),
        Asked::AsksForWhatCame => asks_for_what_came(&mut framer),
        Asked::AllGiven => are_all_given(alloc, &mut framer),
        Asked::FaultBehind => is_fault_told_behind(alloc, &mut framer),
    };
    drop(framer);
    answer
}

#[test]
fn framers(rt: HostRuntime) {
    for (max, asked) in ASKED {
        assert!(rt; is_answered(rt.alloc(), *max, asked));
    }
}

/// What a framer tells of these octets in two pieces: whether they are one frame, or its fault.
fn fed_in_two(framer: &mut Framer, first: &[u8], second: &[u8]) -> Result<bool, FrameFault> {
    match fed(framer, first) {
        Ok((_, true)) => Ok(second.is_empty()),
        Ok((used, false)) => {
            if used < first.len() {
                return Ok(false);
            }
            match fed(framer, second) {
                Ok(answer) => Ok(answer == (second.len(), true)),
                Err(fault) => Err(fault),
            }
        }
        Err(fault) => Err(fault),
    }
}

fn is_told_in_two(
    alloc: Global,
    first: &[u8],
    second: &[u8],
    told: Result<bool, FrameFault>,
) -> bool {
    let mut framer = Framer::new(alloc, 65536);
    let answer = fed_in_two(&mut framer, first, second);
    drop(framer);
    answer == told
}

/// Whether a framer tells this of the octets, cut before each of their first octets.
fn is_told_cut_anywhere(
    alloc: Global,
    octets: &[u8],
    cuts: usize,
    told: Result<bool, FrameFault>,
) -> bool {
    for at in 0..=cuts.min(octets.len()) {
        let (first, second) = octets.split_at(at.min(octets.len()));
        if !is_told_in_two(alloc, first, second, told) {
            return false;
        }
    }
    true
}

/// Where long frames begin, and what a framer tells of them.
const LONG: &[(&[u8], Result<bool, FrameFault>)] = &[
    // a transfer
    (
        b"\x00\x00\x02\x58\x02\x00\x00\x00\x00\x53\x14\xc0\x07\x04\x43\x43\xa0\x01\x00\x43",
        Ok(true),
    ),
    // one whose handle is null
    (
        b"\x00\x00\x02\x58\x02\x00\x00\x00\x00\x53\x14\xc0\x07\x04\x40\x43\xa0\x01\x00\x43",
        Err(FrameFault::BadBody),
    ),
    // a flow with a payload
    (
        b"\x00\x00\x02\x58\x02\x00\x00\x00\x00\x53\x13\xc0\x07\x04\x43\x43\x43\x43\x40\x40",
        Err(FrameFault::BadBody),
    ),
];

/// Whether a framer tells this of 600 octets of a frame that begins so, cut at each octet up to its payload.
fn is_told(alloc: Global, front: &[u8], told: Result<bool, FrameFault>) -> bool {
    match long_frame(alloc, front, 600) {
        Ok(long) => is_told_cut_anywhere(alloc, long.as_slice(), 24, told),
        Err(_) => false,
    }
}

#[test]
fn long_frames_cut_in_their_performative(rt: HostRuntime) {
    for (front, told) in LONG {
        assert!(rt; is_told(rt.alloc(), front, *told));
    }
}

/// Whether a close with 600 octets behind it, of which the body's first two come alone, is a bad body; or these are not kept.
fn is_bad_where_it_is_cut(alloc: Global) -> bool {
    let mut rest = [0u8; 602];
    rest[0] = 0x18;
    rest[1] = 0x45;
    let mut framer = Framer::new(alloc, 65536);
    match fed(&mut framer, b"\x00\x00\x02\x64\x02\x00\x00\x00\x00\x53") {
        Ok(_) => fed(&mut framer, &rest) == Err(FrameFault::BadBody),
        Err(fault) => fault == FrameFault::NoMemory,
    }
}

// Also where memory is refused to join the body (rt try --test --fail-alloc).
#[test]
fn a_cut_body_with_octets_behind_it_is_bad(rt: HostRuntime) {
    assert!(rt; is_bad_where_it_is_cut(rt.alloc()));
}

/// Whether an open of 625 octets, cut behind the fifth octet of its container-id, is judged by that octet, which is the first of two, and the one
/// behind the cut: whole, or a bad body. Else memory was refused before it was whole, or for one that is.
fn is_judged_where_it_is_cut(alloc: Global, behind_the_cut: u8, is_bad: bool) -> bool {
    let first =
        b"\x00\x00\x02\x71\x02\x00\x00\x00\x00\x53\x10\xd0\x00\x00\x02\x61\x00\x00\x00\x01\xb1\x00\x00\x02\x58aaaa\xc3";
    let mut rest = [0x61u8; 595];
    rest[0] = behind_the_cut;
    let mut framer = Framer::new(alloc, 65536);
    let answer = is_judged(&mut framer, first, &rest, is_bad);
    drop(framer);
    answer
}

/// The same of this framer, and of the two pieces.
fn is_judged(framer: &mut Framer, first: &[u8], rest: &[u8], is_bad: bool) -> bool {
    match fed(framer, first) {
        Ok(_) => match fed(framer, rest) {
            Ok(answer) => !is_bad && answer == (595, true),
            Err(FrameFault::BadBody) => is_bad,
            Err(fault) => !is_bad && fault == FrameFault::NoMemory,
        },
        Err(fault) => fault == FrameFault::NoMemory,
    }
}

// Also where memory is refused to join the body (rt try --test --fail-alloc): a character of two octets, of which one lies in each piece, and one that
// is none.
#[test]
fn a_long_performative_is_judged_where_it_is_cut(rt: HostRuntime) {
    assert!(rt; is_judged_where_it_is_cut(rt.alloc(), 0xa9, false));
    assert!(rt; is_judged_where_it_is_cut(rt.alloc(), 0x61, true));
}

/// Whether the performative in front of the octets is found wherever they are cut.
fn is_found_anywhere(octets: &[u8], used: usize, is_transfer: bool) -> bool {
    for at in 0..=octets.len() {
        let (front, back) = octets.split_at(at.min(octets.len()));
        if find_performative(front, back) != Some(Found { used, is_transfer }) {
            return false;
        }
    }
    true
}

/// The same of the body of the frame that these octets are; a transfer has seven octets of payload.
fn is_body_found(frame: &[u8]) -> bool {
    let (_, body) = frame.split_at(frame.len().min(8));
    let is_transfer = body.get(2) == Some(&0x14);
    let payload = if is_transfer { 7 } else { 0 };
    body.is_empty() || is_found_anywhere(body, body.len().saturating_sub(payload), is_transfer)
}

/// Each performative with all its fields; an open whose container-id has a character of two octets; and one whose container-id is cut short.
#[test]
fn a_performative_in_two_places_is_found(rt: HostRuntime) {
    for frame in EACH {
        assert!(rt; is_body_found(frame));
    }
    let open = b"\x00\x53\x10\xc0\x07\x01\xa1\x04\x61\xc3\xa9\x62";
    assert!(rt; is_found_anywhere(open, 12, false));
    let short = b"\x00\x53\x10\xc0\x07\x01\xa1\x04\x61\xc3\xa9";
    assert!(rt; find_performative(&[], short).is_none());
}

/// A framer that was told of a frame of 4 GiB, where it keeps little room.
fn begun(alloc: Global) -> Option<Framer> {
    let mut framer = Framer::new(alloc, u32::MAX);
    if fed(&mut framer, b"\xff\xff\xff\xff\x02\x00\x00\x00") == Ok((8, false))
        && framer.room() <= 512
    {
        Some(framer)
    } else {
        None
    }
}

/// How many of them there can be, up to 40000.
fn begun_at_once(alloc: Global) -> usize {
    let mut framers = Vec::new(alloc);
    for _ in 0..40_000u32 {
        match begun(alloc) {
            Some(framer) => if framers.push(framer).is_err() {
                break;
            },
            None => break,
        }
    }
    framers.len()
}

/// Eight octets of each of many peers tell frames of 4 GiB. So many of these would not fit in an address space of 47 bits.
#[test]
fn eight_octets_ask_for_little(rt: HostRuntime) {
    assert!(rt; begun_at_once(rt.alloc()) == 40_000);
}

fn fault(alloc: Global, octets: &[u8]) -> Option<FrameFault> {
    let mut framer = Framer::new(alloc, 65536);
    fed(&mut framer, octets).err()
}

#[test]
fn faults(rt: HostRuntime) {
    for (octets, told) in FAULTS {
        assert!(rt; fault(rt.alloc(), octets) == Some(*told));
    }
}
