//! Flow control of an AMQP 1.0 session (OASIS AMQP 1.0, part 2): serial numbers, windows and credit.
//!
//! | type | what it holds | section |
//! |---|---|---|
//! | [`Serial`] | a number of 32 bits that wraps: order, distance, ranges | 2.8.10, RFC 1982 |
//! | [`Windows`] | how many transfers each end of a session still takes | 2.5.6 |
//! | [`SenderCredit`] | the credit of a sending link | 2.6.7 |
//! | [`ReceiverCredit`] | the credit of a receiving link | 2.6.7 |
//! | [`SessionFlow`], [`LinkFlow`] | what a flow frame says of a session and of a link | 2.7.4 |
//! | [`CountAhead`], [`NoCredit`], [`GrantRefusal`] | why a call changes nothing | |
//!
//! Each call is one step in constant time. None takes memory, and one that is refused changes nothing. [`serial::laws`] says what serial numbers
//! are to counts without bound.
#![tactic(auto)]

pub mod flow;
pub mod receiver;
pub mod refusal;
pub mod sender;
pub mod serial;
pub mod windows;

pub use flow::{LinkFlow, SessionFlow};
pub use receiver::ReceiverCredit;
pub use refusal::{CountAhead, GrantRefusal, NoCredit};
pub use sender::SenderCredit;
pub use serial::Serial;
pub use windows::Windows;
