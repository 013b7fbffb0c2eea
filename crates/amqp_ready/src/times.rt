//! Time limits of slots, on a clock that the program hands in.
use amqp_conn::{Conn, Phase};
use std::time::Duration;

/// How long slots may take, in milliseconds.
#[derive(Clone, Copy, Debug, PartialEq, Eq)]
pub struct Limits {
    /// Until a connection that was added is open.
    pub open: u64,
    /// Without an octet from the peer while a connection is open. Twice the idle time-out that the peer was sent
    /// (`Config::idle_time_out`) is a fair value.
    pub silence: u64,
    /// From our close, or from a fault, until a slot has ended.
    pub close: u64,
}

/// Returns `span` in milliseconds, the unit of [`Limits`] and of the clock; at most `u64::MAX`.
pub fn milliseconds(span: Duration) -> u64 {
    u64::try_from(span.as_millis()).unwrap_or(u64::MAX)
}

/// What a slot waits for.
#[derive(Clone, Copy, PartialEq, Eq)]
pub(crate) enum Span {
    Open,
    /// Nothing: it is open.
    Nothing,
    End,
}

/// What the time limits ask of a slot.
#[derive(Clone, Copy, PartialEq, Eq)]
pub(crate) enum Due {
    Nothing,
    /// An empty frame, so that the peer does not take the connection for gone (part 2, 2.4.5).
    Beat,
    /// It has taken too long.
    End,
}

/// What a slot shows at a check of the time limits.
#[derive(Clone, Copy)]
pub(crate) struct Seen {
    pub span: Span,
    /// How many reads brought octets.
    pub reads: u64,
    /// How many units were put out.
    pub put_out: u64,
}

/// When a slot was last seen to do something.
#[derive(Clone, Copy)]
pub(crate) struct Times {
    seen: Seen,
    since: u64,
    heard: u64,
    sent: u64,
}

/// Returns what the connection waits for.
pub(crate) fn span_of(conn: &Conn) -> Span {
    match conn.phase() {
        Phase::AwaitHeader | Phase::AwaitOpen => Span::Open,
        Phase::Running => Span::Nothing,
        Phase::Closing | Phase::Closed => Span::End,
    }
}

/// The peer's idle time-out in milliseconds, if its open has one; 0 is the same as none (part 2, 2.7.1).
fn peer_patience(conn: &Conn) -> Option<u32> {
    match conn.peer()?.idle_time_out {
        Some(0) => None,
        patience => patience,
    }
}

fn moment(before: u64, count_before: u64, count: u64, now: u64) -> u64 {
    if count == count_before {
        return before;
    }
    now
}

impl Times {
    /// Returns the moments of a slot that is seen for the first time.
    pub(crate) fn new(seen: Seen, now: u64) -> Times {
        Times {
            seen,
            since: now,
            heard: now,
            sent: now,
        }
    }

    /// Returns the moments of a slot that is seen again.
    pub(crate) fn next(self, seen: Seen, now: u64) -> Times {
        let since = if seen.span == self.seen.span {
            self.since
        } else {
            now
        };
        Times {
            seen,
            since,
            heard: moment(self.heard, self.seen.reads, seen.reads, now),
            sent: moment(self.sent, self.seen.put_out, seen.put_out, now),
        }
    }

    /// Returns what the time limits ask for at `now`.
    pub(crate) fn due(self, conn: &Conn, limits: Limits, now: u64) -> Due {
        let waited = now.saturating_sub(self.since);
        match self.seen.span {
            Span::Open => end_if(waited >= limits.open),
            Span::End => end_if(waited >= limits.close),
            Span::Nothing => self.due_running(conn, limits, now),
        }
    }

    /// Returns the moment at which the time limits ask for something next, if nothing is seen before.
    pub(crate) fn deadline(self, conn: &Conn, limits: Limits) -> u64 {
        match self.seen.span {
            Span::Open => self.since.saturating_add(limits.open),
            Span::End => self.since.saturating_add(limits.close),
            Span::Nothing => self.deadline_running(conn, limits),
        }
    }

    fn deadline_running(self, conn: &Conn, limits: Limits) -> u64 {
        let end = self.heard.saturating_add(limits.silence);
        match peer_patience(conn) {
            Some(patience) => end.min(self.sent.saturating_add(u64::from(patience) / 2)),
            None => end,
        }
    }

    fn due_running(self, conn: &Conn, limits: Limits, now: u64) -> Due {
        if now.saturating_sub(self.heard) >= limits.silence {
            return Due::End;
        }
        match peer_patience(conn) {
            Some(patience) if now.saturating_sub(self.sent) >= u64::from(patience) / 2 => Due::Beat,
            _ => Due::Nothing,
        }
    }
}

/// Returns the earlier of two moments, if there are two.
pub(crate) fn sooner(one: Option<u64>, other: u64) -> Option<u64> {
    match one {
        Some(one) => Some(one.min(other)),
        None => Some(other),
    }
}

fn end_if(is_late: bool) -> Due {
    if is_late {
        return Due::End;
    }
    Due::Nothing
}
