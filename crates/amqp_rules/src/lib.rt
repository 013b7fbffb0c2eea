//! What an endpoint of AMQP 1.0 answers to each step, and what each step leaves: the types of steps and replies, and the definitions. A step
//! is an operation of the application, or a frame that is heard of the peer. The definitions are in `specs/`, one file for each kind of step:
//! a table of refusals or violations in the order in which they are tested, the answer, and the change of the view (`specs/View`).
//!
//! | module | what it has |
//! |---|---|
//! | `config` | what is settled before the first step |
//! | `op`, `reply`, `sliced` | operations, and what a step gives; octets that are sent |
//! | `refusal`, `violation` | why an operation is refused, and a frame |
//! | `status` | the windows and a link as they are shown |
//! | `laws` | the frames of each reply have octets |
//! | `equality` | `==` of operations and of replies is `≡` in contracts |
#![tactic(auto)]
//! # The session (part 2, 2.5.5)
//!
//! ```text
//!                 Begin                  begin heard
//!   Unmapped -------------> BeginSent ----------------+
//!       |                                             |
//!       | begin heard                  Begin          v        End
//!       +-------------> BeginHeard ---------------> Mapped ----------> EndSent
//!                           |                         |                   |
//!                           | end heard               | end heard         | end heard
//!                           |                         | (answered)        |
//!                           +-------------------------+-----> Ended <-----+
//! ```
//!
//! After our end each frame but the peer's end is dropped. No session begins after it has ended.
//!
//! # A link (part 2, 2.6.3 to 2.6.6)
//!
//! ```text
//!                 Attach                attach heard
//!      --------------------> Asked ------------------+
//!                                                    |
//!        attach heard                  Attach        v   Detach, Suspend
//!      ----------------> Offered -------------> Attached --------------> Leaving
//!                           |                        |                      |
//!                           | detach heard           | detach heard         | detach heard
//!                           |                        | (answered)           |
//!                           +------------------------+-------> gone <-------+
//! ```
//!
//! `Rejoin` does what `Attach` does, and the deliveries that it brings in wait on the link. An attach meets the link of its name and role that waits for
//! it, or else makes one. An end of the session, by either end, takes all links away.
//!
//! # The kinds of step
//!
//! | operation | session, link | sends | gives |
//! |---|---|---|---|
//! | `Begin` | unmapped or begin heard | begin | |
//! | `Attach` | mapped | attach | `Link` |
//! | `Start` | mapped, attached sender | transfer | `Delivery` |
//! | `Carry`, `Abort` | mapped, attached sender | transfer | |
//! | `Dispose` | mapped | disposition | |
//! | `Learn` | sender | | `Learned` |
//! | `Grant` | mapped, attached receiver | flow | |
//! | `Offer`, `Drained` | mapped, attached sender | flow | |
//! | `Refresh` | mapped | flow | |
//! | `Take` | receiver | | `Taken` |
//! | `Detach` | mapped, attached | detach | |
//! | `Suspend` | mapped, attached | detach that is not closed | `Suspended` |
//! | `Rejoin` | mapped | attach that tells what waits | `Link` |
//! | `Resume` | mapped, attached sender | transfer, unless the peer does not know the delivery | `Resumed` |
//! | `End` | mapped | end | |
//! | `Beat` | any | empty frame | |
//!
//! | frame heard | session | sends | gives |
//! |---|---|---|---|
//! | begin | unmapped or begin sent | | |
//! | attach | begin heard or mapped | | `Attached`, `Offered` |
//! | flow | begin heard or mapped | flow, where one is asked for | |
//! | transfer | begin heard or mapped | | `Ready` |
//! | disposition | begin heard or mapped | | |
//! | detach | begin heard or mapped | detach, where the link is attached | `Gone`; `Parted` where the link is attached and not closed |
//! | end | begin heard, mapped or end sent | end, where the session is mapped | |
//!
//! Deliveries that a step ends are named in its reply, by role and id.

pub mod config;
pub mod equality;
mod frame_refusal;
pub mod laws;
pub mod op;
pub mod refusal;
pub mod reply;
pub mod sliced;
pub mod status;
pub mod violation;
mod violation_answer;
