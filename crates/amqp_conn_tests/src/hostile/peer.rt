//! A connection that goes through a script.

use crate::act::{Act, Settings, made};
use crate::hostile::frames::{BEGIN, HEADER, OPEN, OWN_BEGIN};
use amqp_conn::*;
use std::alloc::Global;

/// A connection that takes two transfers at a time, and whose journal takes so many steps.
pub(crate) fn connection(alloc: Global, journal_limit: u32) -> Option<Conn> {
    let settings = Settings {
        host: None,
        idle_time_out: None,
        window: 2,
        journal_limit,
    };
    crate::act::connection(alloc, settings)
}

/// A step of a script.
#[derive(Clone, Copy)]
pub(crate) enum Step {
    /// These octets are fed.
    Hears(&'static [u8]),
    Does(Act),
}

pub(crate) type Script = &'static [Step];

// How scripts begin.
pub(crate) const NOTHING: Script = &[];

pub(crate) const HEADED: Script = &[HEADER];

pub(crate) const OPENED: Script = &[HEADER, OPEN];

/// Our begin goes out, and the peer's is heard.
pub(crate) const BEGUN: Script = &[HEADER, OPEN, OWN_BEGIN, BEGIN];

/// What is done to the octets of a script: those from `end` on never come, and the one at `place` is another.
#[derive(Clone, Copy)]
pub(crate) struct Damage {
    pub(crate) end: usize,
    pub(crate) place: usize,
    pub(crate) octet: u8,
}

/// No damage.
pub(crate) const UNHARMED: Damage = Damage {
    end: usize::MAX,
    place: usize::MAX,
    octet: 0,
};

/// What a script was answered.
#[derive(Clone, Copy)]
pub(crate) struct Told {
    /// Each answer was one that may be given there.
    pub(crate) good: bool,
    /// How many octets were fed.
    pub(crate) at: usize,
    /// The number of the fault that ended it, 20 and the framer's number where framing shows it; or 0.
    pub(crate) fault: u32,
    /// How many violations were told, and the number of the last one.
    pub(crate) violations: u32,
    pub(crate) violation: u32,
    /// How many operations were refused, and the number of the last refusal.
    pub(crate) refusals: u32,
    pub(crate) refusal: u32,
}

/// Nothing was fed yet.
pub(crate) const NEW: Told = Told {
    good: true,
    at: 0,
    fault: 0,
    violations: 0,
    violation: 0,
    refusals: 0,
    refusal: 0,
};

/// What one feed answers, and what it changed.
#[derive(Clone, Copy)]
struct One {
    used: usize,
    fault: u32,
    violation: u32,
    before: Phase,
    after: Phase,
    steps: u32,
    units: u64,
}

/// How many octets a feed used, the number of the fault that it told, and that of the violation.
fn told_by(answer: Result<Fed, ConnFault>) -> (usize, u32, u32) {
    match answer {
        Ok(fed) => {
            let violation = match &fed.violation {
                Some(violation) => u32::from(violation.kind.number()),
                None => 0,
            };
            let used = fed.used;
            drop(fed);
            (used, 0, violation)
        }
        Err(ConnFault::Framing(shown)) => (0, shown.number().wrapping_add(20), 0),
        Err(fault) => (0, fault.number(), 0),
    }
}

fn feeds(conn: &mut Conn, piece: &[u8]) -> One {
    let before = conn.phase();
    let steps = conn.logged().steps();
    let units = conn.logged().put_out();
    let (used, fault, violation) = told_by(conn.feed(&Octets::lent(piece)));
    One {
        used,
        fault,
        violation,
        before,
        after: conn.phase(),
        steps: conn.logged().steps().wrapping_sub(steps),
        units: conn.logged().put_out().wrapping_sub(units),
    }
}

/// Some octets were used, and the phase is the same or a later one.
fn takes_due(one: One, len: usize) -> bool {
    let moves = match one.before {
        Phase::AwaitHeader => one.after == Phase::AwaitHeader || one.after == Phase::AwaitOpen,
        Phase::AwaitOpen => one.after == Phase::AwaitOpen || one.after == Phase::Running,
        Phase::Running => one.after == Phase::Running || one.after == Phase::Closed,
        Phase::Closing => one.after == Phase::Closing || one.after == Phase::Closed,
        Phase::Closed => false,
    };
    moves && 1 <= one.used && one.used <= len && one.steps <= 1
}

/// Whether a feed of so many octets may be answered so. A violation is answered by one step, of which one unit goes out, and no octets are used. A fault
/// closes, and a close goes out where our open went and no close of ours.
fn is_due(one: One, len: usize) -> bool {
    let opened = one.before == Phase::AwaitOpen || one.before == Phase::Running;
    let closes = one.before != Phase::Closed && one.after == Phase::Closed && one.steps == 0;
    match one.fault {
        0 if one.violation == 0 => takes_due(one, len),
        0 => {
            3 <= one.violation
                && one.violation <= 14
                && one.before == Phase::Running
                && one.after == Phase::Running
                && one.used == 0
                && one.steps == 1
                && one.units == 1
        }
        1 => closes && one.before == Phase::AwaitHeader && one.units == 0,
        3 | 4 | 5 | 21..=25 => {
            closes && one.before != Phase::AwaitHeader && one.units == u64::from(opened)
        }
        6 => one.before == Phase::Closed && one.units == 0,
        _ => false,
    }
}

/// Feeds all octets, to the first fault.
pub(crate) fn hears(conn: &mut Conn, octets: &[u8], told: Told) -> Told {
    let mut told = told;
    let mut used = 0usize;
    for _ in 0..99 {
        let rest = octets.get(used..).unwrap_or(&[]);
        if rest.is_empty() || told.fault != 0 {
            break;
        }
        let one = feeds(conn, rest);
        told.good = told.good && is_due(one, rest.len());
        told.fault = one.fault;
        if one.violation != 0 {
            told.violation = one.violation;
            told.violations = told.violations.wrapping_add(1);
        }
        used = used.wrapping_add(one.used);
    }
    told.at = told.at.wrapping_add(octets.len());
    told
}

/// Does the operation: 0, or the number of its refusal.
pub(crate) fn does(alloc: Global, conn: &mut Conn, act: Act) -> u32 {
    match made(alloc, act) {
        Some(op) => match conn.perform(op) {
            Ok(()) => 0,
            Err(refusal) => u32::from(refusal.number()),
        },
        None => 28,
    }
}

/// Does the operation. A refusal is one of those that there are, and no want of memory.
fn acts(alloc: Global, conn: &mut Conn, act: Act, told: Told) -> Told {
    let mut told = told;
    let refusal = does(alloc, conn, act);
    if refusal != 0 {
        told.good = told.good && refusal <= 31 && refusal != 28;
        told.refusal = refusal;
        told.refusals = told.refusals.wrapping_add(1);
    }
    told
}

/// Feeds what the damage leaves of a frame, which has at most 40 octets.
fn hears_frame(conn: &mut Conn, frame: &[u8], damage: Damage, told: Told) -> Told {
    let mut octets = [0u8; 40];
    for (octet, whole) in octets.iter_mut().zip(frame) {
        *octet = *whole;
    }
    if let Some(octet) = octets.get_mut(damage.place.wrapping_sub(told.at)) {
        *octet = damage.octet;
    }
    let len = frame.len().min(damage.end.wrapping_sub(told.at));
    hears(conn, octets.get(..len).unwrap_or(&[]), told)
}

/// Goes on through a script. Nothing is done behind the end.
pub(crate) fn goes(
    alloc: Global,
    conn: &mut Conn,
    script: Script,
    damage: Damage,
    told: Told,
) -> Told {
    let mut told = told;
    for step in script {
        told = match step {
            _ if damage.end <= told.at => told,
            Step::Hears(frame) => hears_frame(conn, frame, damage, told),
            Step::Does(act) => acts(alloc, conn, *act, told),
        };
    }
    told
}

/// The connection answers further calls as its phase says.
pub(crate) fn answers(alloc: Global, conn: &mut Conn) -> bool {
    let closed = conn.phase() == Phase::Closed;
    let one = feeds(conn, &[0]);
    let refusal = does(alloc, conn, Act::Beat);
    is_due(one, 1) && (one.fault == 6) == closed && (!closed || refusal == 1)
}

/// The unit is a performative of this descriptor whose last field is an error with this condition alone; of descriptor 0 where it is no frame with a body.
fn tells(unit: &[u8], code: u32, condition: &[u8]) -> bool {
    let start = unit.len().saturating_sub(condition.len());
    let length = unit.get(start.saturating_sub(1)).copied().unwrap_or(0);
    u32::from(unit.get(10).copied().unwrap_or(0)) == code
        && unit.get(start..).unwrap_or(&[]) == condition
        && usize::from(length) == condition.len()
}

/// The last unit that waits is a performative of this descriptor, with this condition; all are popped.
pub(crate) fn last_tells(conn: &mut Conn, code: u32, condition: &[u8]) -> bool {
    let mut told = false;
    for _ in 0..99 {
        match conn.pop_unit() {
            Some(unit) => told = tells(unit.bytes.slices().0, code, condition),
            None => break,
        }
    }
    told
}
