//! The reasons why a shared connection cannot be taken apart.
ghost use Rattle.std.specs.Prelude.{◌≡◌};

use thiserror::Error;

/// Why a shared connection was not taken apart.
#[derive(Clone, Copy, PartialEq, Eq, Debug, Error)]
pub enum CloseReason {
    /// The given passes have not made all of the journal's steps: some passes are missing.
    #[error("the passes made {made} steps, and the journal has {steps}")]
    PassesMissing {
        /// How many steps the given passes have made together.
        made: u128,
        /// How many steps the journal has.
        steps: u64,
    },
    /// There is no memory for the units that nobody took.
    #[error("memory was refused")]
    NoMemory,
}
