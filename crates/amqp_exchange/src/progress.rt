//! How far an exchange is.
use crate::again::PAUSE;
use std::rt::Clock;
use std::time::Instant;

/// Shows how far an exchange is.
pub trait Watch {
    /// Notes how many messages were sent, or taken, until now, those of earlier runs among them.
    fn note(&mut self, count: u64);

    /// Ends the line: something else is printed next, or nothing more.
    fn end(&mut self);

    /// Prints a line on standard error.
    fn say(&mut self, line: &str);

    /// Returns how many milliseconds have passed since the command began; 0 if there is no clock.
    fn elapsed(&self) -> u64;
}

/// Nobody looks.
#[derive(Clone, Copy)]
pub struct Unwatched;

impl Watch for Unwatched {
    fn note(&mut self, _count: u64) {}

    fn end(&mut self) {}

    fn say(&mut self, _line: &str) {}

    fn elapsed(&self) -> u64 {
        0
    }
}

/// How far it is as a line on standard error, which is written over again. One that cannot be written is left out.
#[derive(Clone, Copy)]
pub(crate) struct Progress<'a, E> {
    rt: &'a E,
    /// `None` if there is no clock.
    begun: Option<Instant>,
    /// Progress is printed.
    is_told: bool,
    /// How many messages there are to be; `None` if that is not known.
    wanted: Option<u32>,
    /// How many there were at the first note of this run; `None` before it. They are not counted in the rate.
    first: Option<u64>,
    /// When a line was written last, in milliseconds since the command began; 0 if none was.
    told: u64,
    /// A line was written, and has no end yet.
    is_open: bool,
}

impl<'a, E: Eprint + Clock> Progress<'a, E> {
    pub(crate) fn new(rt: &'a E, is_told: bool, wanted: Option<u32>) -> Progress<'a, E> {
        Progress {
            rt,
            begun: Instant::now(rt).ok(),
            is_told,
            wanted,
            first: None,
            told: 0,
            is_open: false,
        }
    }

    /// How long it has taken, in milliseconds; `None` if there is no clock.
    fn passed(&self) -> Option<u64> {
        let passed = self.begun?.elapsed(self.rt).ok()?;
        Some(
            passed
                .as_secs()
                .saturating_mul(1000)
                .saturating_add(u64::from(passed.subsec_millis())),
        )
    }

    fn tell(&self, count: u64, first: u64, passed: u64) {
        let rate = count.saturating_sub(first).saturating_mul(1000) / passed.max(1);
        match self.wanted {
            Some(wanted) => {
                let left = u64::from(wanted).saturating_sub(count);
                let _ = eprint!(self.rt; "\r{count} messages, {rate} a second, {left} left  ");
            }
            None => {
                let _ = eprint!(self.rt; "\r{count} messages, {rate} a second  ");
            }
        }
    }
}

impl<E: Eprint + Clock> Watch for Progress<'_, E> {
    fn note(&mut self, count: u64) {
        let first = self.first.unwrap_or(count);
        self.first = Some(first);
        if !self.is_told {
            return;
        }
        if let Some(passed) = self.passed() {
            if passed >= self.told.saturating_add(PAUSE) {
                self.tell(count, first, passed);
                self.told = passed;
                self.is_open = true;
            }
        }
    }

    fn end(&mut self) {
        if self.is_open {
            self.is_open = false;
            let _ = eprintln!(self.rt;);
        }
    }

    fn say(&mut self, line: &str) {
        self.end();
        let _ = eprintln!(self.rt; "{line}");
    }

    fn elapsed(&self) -> u64 {
        self.passed().unwrap_or(0)
    }
}
