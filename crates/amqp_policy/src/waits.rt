//! When a heartbeat is due and when a silent peer is given up, counted in reads and without a clock (part 2, 2.4.5).
ghost use Rattle.std.specs.Prelude.{◌≡◌};
ghost use Rattle.amqp_policy.specs.Waits.{waits_for, heard, waited, is_over, after_turn, is_beat_due};

use std::marker::Model;

/// How long a read waits, in milliseconds.
pub const TICK: u32 = 250;

/// Counts the reads that ended in vain and the turns in which nothing was sent. Each takes at most [`TICK`].
#[derive(Clone, Copy)]
pub struct Waits {
    /// So many reads in a row that ended in vain are too many; `None` if no number is.
    most: Option<u32>,
    /// Reads in a row that ended in vain.
    silent: u32,
    /// Turns in a row in which nothing was put out.
    idle: u32,
    /// How many units had been put out at the last turn.
    put_out: u64,
}

impl Model for Waits {
    ghost use Rattle.amqp_policy.specs.Waits.{WaitsView};

    ghost Value = { WaitsView };

    ghost view = { λ w. record { most = w.most; silent = w.silent; idle = w.idle; put_out = w.put_out } };

    ghost inverse = { λ w. record { most = w.most; silent = w.silent; idle = w.idle; put_out = w.put_out } };
}

impl Waits {
    /// Returns a new count that gives a silent peer up after `seconds`, or never if `seconds` is `None`.
    pub fn new(seconds: Option<u32>) -> Waits
        ensures { result ≡ waits_for seconds }
    {
        let most = match seconds {
            Some(seconds) => Some(seconds.saturating_mul(1000 / TICK)),
            None => None,
        };
        Waits {
            most,
            silent: 0,
            idle: 0,
            put_out: 0,
        }
    }

    /// Notes that octets came from the peer.
    pub fn hear(&mut self)
        ensures { self.new ≡ heard self.old }
    {
        self.silent = 0;
    }

    /// Notes that one more read ended in vain, and returns whether the peer has been silent for too long.
    pub fn is_over(&mut self) -> bool
        ensures waited { self.new ≡ waited self.old }
        ensures over { result ≡ is_over (waited self.old) }
    {
        self.silent = self.silent.saturating_add(1);
        match self.most {
            Some(most) => self.silent >= most,
            None => false,
        }
    }

    /// Notes that a turn ended, with `put_out` units put out since the connection began, and returns whether the peer is to be sent a heartbeat.
    ///
    /// A peer with an idle time-out is sent one as soon as a quarter of it has gone without a unit put out. `idle_time_out` is in milliseconds.
    pub fn is_beat_due(&mut self, put_out: u64, idle_time_out: Option<u32>) -> bool
        ensures turn { self.new ≡ after_turn put_out self.old }
        ensures due { result ≡ is_beat_due put_out idle_time_out self.old }
    {
        if put_out != self.put_out {
            self.put_out = put_out;
            self.idle = 0;
            return false;
        }
        self.idle = self.idle.saturating_add(1);
        match idle_time_out {
            Some(milliseconds) => milliseconds > 0 && self.idle >= milliseconds / 4 / TICK,
            None => false,
        }
    }
}
