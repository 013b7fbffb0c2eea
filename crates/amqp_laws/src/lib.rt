//! Journals: lists of steps with their replies, and what a session is after one, by formulas over the whole journal (`specs/At`). A journal is
//! lawful where each reply is the one that amqp_rules' definitions give after the entries before it. The laws of `laws::laws`, for every lawful
//! journal:
//!
//! | clause | law |
//! |---|---|
//! | `starts` | the empty journal gives the session before its first step |
//! | `goes_on` | one entry more is one step: what the formulas give of the longer journal is what the step makes of the session before it |
//! | `sound` | the links of a session are told apart: by number, by our handles, by the peer's, by role and name |
//! | `unfinished` | deliveries are unfinished on attached links alone: ours where we send, the peer's where we receive |
//! | `waiting` | no delivery that waits on a link to be resumed has the tag of one that is unsettled on it |
//! | `handle` | the handle of an attach is the lowest number that is no handle of ours |
//! | `window` | the incoming window is the configured one less the transfers heard since our last begin or flow |
//! | `promise` | how many transfers we promised to take in all never falls |
//! | `credit` | no delivery begins without credit, ours or the peer's |
//! | `serials` | the i-th first transfer that is sent carries the i-th serial number from the first one on |
//! | `twice` | no delivery is named as ended twice |
//! | `kept` | the unsettled deliveries stand in serial order before the next id, and no two of a link have one tag |
//! | `left` | the unsettled deliveries are those that began unsettled, less those that the replies named as ended |
//! | `written` | each reply sends one frame at most, and that has octets, at most as many as the peer takes by then |
//!
//! | module | what it has |
//! |---|---|
//! | `entry` | a step with its reply |
//! | `laws` | the laws |
//! | `equality` | `==` of entries is `≡` in contracts |
#![tactic(auto)]

pub mod entry;
pub mod equality;
pub mod laws;
