//! Two ends that speak with each other: sessions whose journals are reached by moves, each end's own operations and the hearing of the other's next
//! frame (`specs/World`). Both are within their limits, short of their journal limits, and dispose only deliveries that they heard; a link that is put
//! aside is left, and neither rejoins a link or resumes a delivery. A world says nothing of a connection that is lost, nor that a frame is ever heard,
//! nor of want of memory. What holds of every such world, as `laws::laws` says it:
//!
//! | clause | law |
//! |---|---|
//! | `taken` | the next frame is no violation for the end that hears it |
//! | `sent` | what was taken on an attached link is a front of the deliveries that were sent complete on the link whose attach was heard |
//! | `ever` | and so it is on a link that was attached once, whether it is left since, or gone, or not |
//! | `only` | nothing is taken on a link that was never attached |
//! | `all` | where the end that takes has heard all that the other sent, and neither has left the link, what it took and what waits are all of these |
//! | `states` | and of each unsettled delivery that an end sent, the last state that it heard is then the last one that the other end gave |
//! | `own` | in every world, the state of its own that an end has of an unsettled delivery which it received is the last one that it gave |
//! | `learnt` | and what an end learnt of a delivery is what the other end told of it, by the first of its dispositions that settled it or gave an outcome: the state that this one gave, or else that the end had as its own of the delivery, and whether this one settled |
//! | `window` | a transfer that comes next finds the incoming window open |
//! | `link` | and its link, on which the end that hears it receives |
//! | `credit` | and, where it begins a delivery on a link that was not left, credit |
//! | `begun` | an end that has heard all that the other sent has heard its begin where it was sent |
//! | `lives` | and where its session is not over, the other's is not over |
//! | `ids` | and then it has heard first transfers of the same ids as the other sent, in the same order |
//! | `expected` | and the id that it expects next, if any, is that of the other's next delivery |
//!
//! When each end has heard all that the other sent, the two agree (`specs/Agreeing`); but for `sessions`, this is said while their sessions are mapped:
//!
//! | clause | law |
//! |---|---|
//! | `sessions` | each has heard the other's begin exactly if it was sent; both have heard an end, or neither; neither waits for the answer to its end |
//! | `links` | each link of one end is a link of the other's, with both attaches crosswise, and neither end has left it |
//! | `counts` | both ends of an attached link have the same delivery-count, credit and unfinished delivery |
//! | `drains` | a drain that is open at the receiver is wished at the sender |
//! | `windows` | the next transfer of one end is the one that the other awaits, and it may send as many as the other still takes |
//! | `unsettled` | both ends hold the same unsettled deliveries in the same order; the state that is local at one end is remote at the other |
//! | `granted` | the sender may begin as many deliveries as the receiver's journal granted, less those that the receiver has seen begun or given up |
//! | `reopens` | after a refresh that was heard, as long as no transfer was heard since, the other end may send as many transfers as the window has |
//!
//! From any state, two ends that only hear, in any order, hear at most twice as many frames as were in flight (`ends`): no answer is answered.
#![tactic(auto)]

pub mod laws;
