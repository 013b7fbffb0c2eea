//! Serial numbers of 32 bits (part 2, 2.8.10; RFC 1982).
ghost use Rattle.std.specs.Prelude.{◌≡◌, ◌<◌, ◌≤◌, ◌+◌, ◌-◌, ◌^◌, ◌↔◌, ◌⊎◌, ℕ, IsTrue};
ghost use Rattle.amqp_flow.specs.Serial.{wire, distance, is_before, is_inside, AreClose, numbered};

use std::marker::Model;

/// A serial number of 32 bits (part 2, 2.8.10; RFC 1982): a transfer id, a delivery id or a delivery-count.
/// Its order is not total, so there is no `PartialOrd`.
#[derive(Clone, Copy, Debug, PartialEq, Eq)]
pub struct Serial(pub u32);

impl Model for Serial {
    ghost use Rattle.std.specs.Prelude.{ℕ};

    ghost Value = { ℕ };

    ghost view = { λ s. s.0 };

    ghost inverse = { λ n. record { 0 = n } };
}

impl Serial {
    /// Half of the circle, 2^31: of two numbers so far apart neither comes before the other (RFC 1982, 3.2).
    pub const HALF: u32 = 1 << 31;

    /// The number `n` steps on (RFC 1982, 3.1, which leaves it open from 2^31 on).
    pub fn plus(self, n: u32) -> Serial
        ensures { result ≡ wire (self + n) }
    {
        Serial(self.0.wrapping_add(n))
    }

    /// How many steps of one lead from this number to `to`.
    pub fn distance(self, to: Serial) -> u32
        ensures { result ≡ distance self to }
    {
        to.0.wrapping_sub(self.0)
    }

    /// Whether this number comes before `other` (RFC 1982, 3.2). Of two numbers 2^31 apart neither does.
    pub fn is_before(self, other: Serial) -> bool
        ensures { result ≡ is_before self other }
    {
        let ahead = self.distance(other);
        0 < ahead && ahead < Serial::HALF
    }

    /// Whether this number is one of `first` to `last`, both included.
    /// A range whose ends are 2^31 or more apart holds nothing.
    pub fn in_range(self, first: Serial, last: Serial) -> bool
        ensures { result ≡ is_inside self first last }
    {
        let length = first.distance(last);
        first.distance(self) <= length && length < Serial::HALF
    }
}

// RFC 1982, 3.2, for numbers of 32 bits.
const _: () = prove!(Serial::HALF == 2_147_483_648);

/// What this module's words mean for numbers that are counted without bound from some first one: a serial number
/// stands for its count as long as the counts in question lie less than 2^31 apart.
pub fn laws()
    ensures plus { (m n : ℕ) → wire (wire m + n) ≡ wire (m + n) }
    ensures counted { (a n : ℕ) → n < 2 ^ 32 → distance a (wire (a + n)) ≡ n }
    ensures reached { (a b : ℕ) → wire (a + distance a b) ≡ wire b }

    // RFC 1982, 3.2, in its own words
    ensures rfc { (a b : ℕ) → a < 2 ^ 32 → b < 2 ^ 32 → (IsTrue (is_before a b) ↔ (((a < b) × (b - a < 2 ^ 31)) ⊎ ((b < a) × (2 ^ 31 < a - b)))) }
    ensures before { (first i j : ℕ) → AreClose i j → (IsTrue (is_before (wire (first + i)) (wire (first + j))) ↔ (i < j)) }
    ensures inside { (first x i j : ℕ) → AreClose i x → AreClose x j → AreClose i j → (IsTrue (is_inside (wire (first + x)) (wire (first + i)) (wire (first + j))) ↔ ((i ≤ x) × (x ≤ j))) }

    // the number of a transfer is the only one in reach that goes over the wire as its id does
    ensures numbered { (first id n k : ℕ) → k ≤ n → n < k + 2 ^ 32 → wire (first + k) ≡ wire id → numbered first id n ≡ k }
{}
