//! How a shared session is taken apart, twice where that is refused memory.

use super::shown::{Course, Shown, Units, course_of, look, show, total};
use crate::session::closed_by;
use amqp_shared::{CloseReason, Closed, Name, NotClosed, Pass, Shared, WriterEnd};
use std::sync::Wait;

/// What was known before a close.
#[derive(Clone, Copy)]
struct Before {
    shown: Shown,
    taken: Units,
    /// Passes may be gone.
    misses: bool,
}

fn stands(closed: Closed, taken: Units) -> Option<Course> {
    let course = course_of(&closed, taken);
    drop(closed);
    course
}

/// Takes two units, and then takes the session apart with these passes.
pub(crate) fn end<N: Name, R: Wait>(
    rt: &R,
    shared: Shared<N>,
    passes: Vec<Pass<N>>,
    writer: WriterEnd<N>,
    misses: bool,
) -> Option<Course> {
    let mut writer = writer;
    let mut taken = Units::NONE;
    taken.take(&mut writer, 2);
    let before = Before {
        shown: look(rt, &shared, total(passes.as_slice())),
        taken,
        misses,
    };
    match shared.close(passes, writer) {
        Ok(closed) => stands(closed, taken),
        Err(kept) => end_again(rt, kept, before),
    }
}

/// The same of what was handed back, which is to be as it was.
fn end_again<N: Name, R: Wait>(rt: &R, kept: NotClosed<N>, before: Before) -> Option<Course> {
    let reason = kept.reason;
    let (shared, passes, writer) = kept.into_parts();
    let is_same = look(rt, &shared, total(passes.as_slice())) == before.shown
        && writer.taken() == 2;
    let course = if reason == CloseReason::NoMemory {
        close(shared, passes, writer, before.taken)
    } else {
        drop(passes);
        drain(rt, shared, writer, before.taken)
    };
    let is_due = reason == CloseReason::NoMemory || before.misses;
    if is_same && is_due { course } else { None }
}

fn close<N: Name>(
    shared: Shared<N>,
    passes: Vec<Pass<N>>,
    writer: WriterEnd<N>,
    taken: Units,
) -> Option<Course> {
    match closed_by(shared, passes, writer) {
        Some(closed) => stands(closed, taken),
        None => None,
    }
}

/// A session some of whose passes are gone can be read to its end, and is not taken apart.
fn drain<N: Name, R: Wait>(
    rt: &R,
    shared: Shared<N>,
    writer: WriterEnd<N>,
    taken: Units,
) -> Option<Course> {
    let mut writer = writer;
    let mut units = taken;
    for _ in 0..9u8 {
        units.take(&mut writer, 9);
        move_units(rt, &shared);
    }
    let shown = move_units(rt, &shared);
    drop(writer);
    drop(shared);
    Some(Course { shown, units })
}

/// What the readers show once units were moved to the ring.
fn move_units<N: Name, R: Wait>(rt: &R, shared: &Shared<N>) -> Shown {
    let mut guard = shared.lock(rt);
    shared.move_units(&mut guard);
    let shown = show(guard.conn(), 0);
    drop(guard);
    shown
}
