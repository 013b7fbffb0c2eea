//! Which of the two ends.
ghost use Rattle.std.specs.Prelude.{◌≡◌};
ghost use Rattle.amqp_world.specs.Sides.{other};

/// One of the two ends.
#[derive(Clone, Copy, Debug, PartialEq, Eq)]
pub enum Side {
    A,
    B,
}

impl Side {
    /// The end that it speaks with.
    pub fn other(self) -> Side
        ensures { result ≡ other self }
    {
        match self {
            Side::A => Side::B,
            Side::B => Side::A,
        }
    }
}
