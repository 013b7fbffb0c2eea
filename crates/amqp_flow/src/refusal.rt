//! Why a call changes nothing.
use thiserror::Error;

/// The peer's flow counts a transfer or a delivery that was not sent yet.
#[derive(Clone, Copy, Debug, PartialEq, Eq, Error)]
#[error("the flow counts what was not sent yet")]
pub struct CountAhead;

/// The link has no credit.
#[derive(Clone, Copy, Debug, PartialEq, Eq, Error)]
#[error("the link has no credit")]
pub struct NoCredit;

/// Why a credit is not granted, in the order of the checks.
#[derive(Clone, Copy, Debug, PartialEq, Eq, Error)]
pub enum GrantRefusal {
    /// The credit is above [`MAX_GRANT`](crate::ReceiverCredit::MAX_GRANT).
    #[error("the credit is above 2147483647")]
    BadCredit,
    /// The credit is below the present one.
    #[error("the credit is below the present one")]
    CreditRecedes,
    /// The last grant had drain, and some of its credit is left.
    #[error("a drain is open")]
    Draining,
}
