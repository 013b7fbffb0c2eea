//! When credit is granted again (part 2, 2.6.7).
ghost use Rattle.std.specs.Prelude.{◌≡◌};
ghost use Rattle.amqp_shared.specs.Renewing.{is_due};

/// When a consumer grants credit again (part 2, 2.6.7).
#[derive(Clone, Copy, Debug, PartialEq, Eq)]
pub enum Renewal {
    /// After each batch: after each delivery, unless deliveries are taken in batches.
    Each,
    /// When at most half of the credit is left.
    AtHalf,
    /// When no credit is left: for a peer that counts from a credit of its own, as RabbitMQ 3.10 does.
    AtZero,
}

impl Renewal {
    /// Returns whether `credit` is to be granted again when `rest` of it is left.
    pub fn is_due(self, credit: u32, rest: u32) -> bool
        ensures { result ≡ is_due self credit rest }
    {
        match self {
            Renewal::Each => true,
            Renewal::AtHalf => rest <= credit / 2,
            Renewal::AtZero => rest == 0,
        }
    }
}
