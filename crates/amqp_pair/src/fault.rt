//! Why a run fails.
use crate::reading::ReadFault;
use amqp_conn::StartFault;
use amqp_rules::refusal::Refusal;
use amqp_shared::CloseReason;
use std::io;
use thiserror::Error;

/// Why a run fails.
#[derive(Debug, Drop, Error)]
pub enum PairFault {
    #[error("an option is out of its range")]
    Options,
    #[error("a connection cannot start: {0}")]
    Start(StartFault),
    #[error("a socket failed: {0}")]
    Socket(io::Error),
    #[error("an end cannot read on: {0}")]
    Read(ReadFault),
    #[error("a write to a socket failed: {0}")]
    Write(io::Error),
    #[error("the messages were not all sent and learnt of: {0}")]
    Send(Refusal),
    #[error("a consumer stopped: {0}")]
    Consume(Refusal),
    #[error("an end was not taken apart: {0}")]
    Close(CloseReason),
    #[error("a receipt does not stand in the journal")]
    Receipt,
    #[error("the ids that were used are not those from the first one on")]
    Ids,
    #[error("not as many octets were received as were to be sent")]
    Octets,
    #[error("a write failed: {0}")]
    Out(io::Error),
    #[error("the system makes no thread")]
    Thread,
    #[error("memory was refused")]
    NoMemory,
}
