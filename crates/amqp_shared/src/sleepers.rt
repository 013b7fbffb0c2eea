//! The threads that sleep until a delivery comes, each at a condition of its own, so that one delivery wakes one
//! thread.
ghost use Rattle.std.specs.Prelude.{◌≡◌, IsTrue, IsFalse};
ghost use Rattle.amqp_shared.specs.Sleeping.{IsNothingYet};

use amqp_conn::{Conn, Phase, Role};
use amqp_rules::status::LinkStatus;

/// How many threads can sleep at conditions of their own; all others share one.
pub(crate) const SEATS: usize = 16;

/// The state of a seat.
#[derive(Clone, Copy)]
enum Seat {
    /// No thread has it.
    Free,
    /// A thread sleeps until the link has a delivery, or until a take would be refused for another reason than that
    /// there is none. A thread that went to sleep later has a greater `since`.
    Sleeps { link: u32, since: u64 },
    /// The thread was woken, and has not tried again yet.
    Woken { link: u32 },
}

impl Seat {
    fn is_free(self) -> bool {
        matches!(self, Seat::Free)
    }

    fn is_woken_on(self, of: u32) -> bool {
        match self {
            Seat::Woken { link } => link == of,
            Seat::Free | Seat::Sleeps { .. } => false,
        }
    }
}

/// The threads that sleep until a delivery comes.
///
/// Of the threads of one link, one is woken at a time: the one that went to sleep last, since its memory is most likely
/// still cached. If it leaves something ready, the next one is woken. Each release of the lock wakes one thread, of
/// whatever link.
#[derive(Clone, Copy)]
pub(crate) struct Sleepers {
    seats: [Seat; SEATS],
    /// How many threads sleep at seats.
    asleep: u32,
    /// How many threads sleep without a seat.
    others: u32,
    /// How many threads went to sleep at seats so far.
    count: u64,
}

impl Sleepers {
    pub(crate) const NONE: Sleepers = Sleepers {
        seats: [Seat::Free; SEATS],
        asleep: 0,
        others: 0,
        count: 0,
    };

    /// Counts a thread that goes to sleep for a delivery of the link, and returns its seat, if one is free.
    pub(crate) fn sit(&mut self, link: u32) -> Option<usize> {
        let Some(place) = self.seats.iter().position(|seat| seat.is_free()) else {
            self.others = self.others.saturating_add(1);
            return None;
        };
        self.count = self.count.saturating_add(1);
        self.asleep = self.asleep.saturating_add(1);
        self.put(
            place,
            Seat::Sleeps {
                link,
                since: self.count,
            },
        );
        Some(place)
    }

    /// Counts the thread of this seat, or a thread without one, as awake: it holds the lock again.
    pub(crate) fn rise(&mut self, place: Option<usize>) {
        let Some(place) = place else {
            self.others = self.others.saturating_sub(1);
            return;
        };
        if let Some(Seat::Sleeps { .. }) = self.seats.get(place) {
            self.asleep = self.asleep.saturating_sub(1);
        }
        self.put(place, Seat::Free);
    }

    pub(crate) fn has_others(&self) -> bool {
        self.others > 0
    }

    /// Returns the seat of the thread to wake, and counts it as woken. If the connection does no operation any more,
    /// each sleeper is woken in its turn.
    pub(crate) fn rouse(&mut self, conn: &Conn, is_full: bool) -> Option<usize> {
        if self.asleep == 0 {
            return None;
        }
        let has_ended = is_full || conn.phase() != Phase::Running;
        let (place, link) = self.last(conn, has_ended)?;
        self.asleep = self.asleep.saturating_sub(1);
        self.put(place, Seat::Woken { link });
        Some(place)
    }

    /// Returns the seat and the link of the thread that went to sleep last among those with news.
    fn last(&self, conn: &Conn, has_ended: bool) -> Option<(usize, u32)> {
        let mut found = None;
        let mut latest = 0;
        for (place, seat) in self.seats.iter().enumerate() {
            if let Seat::Sleeps { link, since } = *seat {
                if latest < since
                    && (has_ended || has_news(conn, link))
                    && !self.is_woken_on(link)
                {
                    latest = since;
                    found = Some((place, link));
                }
            }
        }
        found
    }

    fn is_woken_on(&self, link: u32) -> bool {
        self.seats.iter().any(|seat| seat.is_woken_on(link))
    }

    fn put(&mut self, place: usize, seat: Seat) {
        if let Some(old) = self.seats.get_mut(place) {
            *old = seat;
        }
    }
}

/// Returns whether a take would not be refused with `Nothing`: a delivery is ready, or the link is gone. Nothing more
/// comes on a link that this end has left; there is no news until the peer leaves it, too.
fn has_news(conn: &Conn, link: u32) -> bool
    ensures { IsFalse result → IsNothingYet conn.now link }
{
    match conn.logged().endpoint().status(link) {
        Some(status) => !is_nothing_yet(status),
        None => true,
    }
}

fn is_nothing_yet(status: LinkStatus) -> bool
    ensures { IsTrue result → (status.role ≡ Role.Receiver) × (status.ready ≡ 0) }
{
    status.role == Role::Receiver && status.ready == 0
}
