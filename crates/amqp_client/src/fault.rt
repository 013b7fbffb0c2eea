//! Why a call for one link fails.
use amqp_conn::{CloseRefusal, PumpFault, Refusal, StartFault};
use thiserror::Error;

/// Why a call for one link fails.
#[derive(Clone, Copy, Debug, Error)]
pub enum ClientFault {
    #[error("the connection cannot start: {0}")]
    Start(StartFault),
    #[error("{0}")]
    Pump(PumpFault),
    #[error("the octets ended before the connection did")]
    EndOfInput,
    #[error("the peer has closed the connection")]
    Closed,
    #[error("the peer has ended the link, the session or the connection with an error")]
    Ended,
    #[error("the peer has said nothing for too long")]
    Silent,
    #[error("the peer asks for a SASL layer, which this end has none of (part 5): it has to allow connections without one")]
    Sasl,
    #[error("an operation was refused: {0}")]
    Refused(Refusal),
    #[error("the connection cannot close: {0}")]
    Close(CloseRefusal),
    #[error("memory was refused")]
    NoMemory,
}
