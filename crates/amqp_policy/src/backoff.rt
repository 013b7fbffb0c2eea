//! How long to wait before the next attempt to connect.
ghost use Rattle.std.specs.Prelude.{◌≡◌, ◌+◌, IfSome};
ghost use Rattle.amqp_policy.specs.Backoff.{fresh, next_pause, after_pause};

use std::marker::Model;

/// The first pause, in milliseconds.
const FIRST: u32 = 500;

/// The longest pause, in milliseconds.
const LONGEST: u32 = 8000;

/// Pauses between attempts: half a second, doubled up to eight seconds, until the limit is used up.
#[derive(Clone, Copy)]
pub struct Backoff {
    limit: u64,
    left: u64,
    pause: u32,
}

impl Model for Backoff {
    ghost use Rattle.std.specs.Prelude.{◌≤◌};
    ghost use Rattle.amqp_policy.specs.Backoff.{BackoffView};

    ghost Value = { BackoffView };

    ghost view = { λ b. record { limit = b.limit; left = b.left; pause = b.pause } };

    ghost invariant = { λ b. b.pause ≤ 8000 };

    ghost inverse = { λ b. record { limit = b.limit; left = b.left; pause = b.pause } };
}

impl Backoff {
    /// Returns the pauses of attempts that together wait at most `limit_milliseconds`.
    pub fn new(limit_milliseconds: u64) -> Backoff
        ensures { result ≡ fresh limit_milliseconds }
    {
        Backoff {
            limit: limit_milliseconds,
            left: limit_milliseconds,
            pause: FIRST,
        }
    }

    /// Returns the next pause in milliseconds, or `None` if the limit is used up.
    pub fn next(&mut self) -> Option<u32>
        ensures value { result ≡ next_pause self.old }
        ensures after { self.new ≡ after_pause self.old }
        ensures spent { IfSome result (λ p. self.new.left + p ≡ self.old.left) }
    {
        if self.left == 0 {
            return None;
        }
        let pause = self.left.min(u64::from(self.pause)) as u32;
        self.left -= u64::from(pause);
        self.pause = (self.pause * 2).min(LONGEST);
        Some(pause)
    }

    /// Begins anew after progress: with the first pause and the whole limit.
    pub fn reset(&mut self)
        ensures { self.new ≡ fresh self.old.limit }
    {
        self.left = self.limit;
        self.pause = FIRST;
    }
}
