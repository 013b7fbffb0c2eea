//! Two ends that speak with each other.
//!
//! | module | what it tests |
//! |---|---|
//! | `passing` | deliveries whose ids cross 2^32: sent, heard and disposed; and what is refused |
//! | `random` | whatever both do, and whenever they hear: what is taken is what was sent, what is learnt is what was said, and once nothing is on its way both agree |
//! | `agreeing` | what both show of each other once nothing is on its way, by their readers |
//! | `rejoining` | a link that is put aside while a delivery is under way, and brought back |
//! | `growth` | growths of memory that are refused |
//! | `calls` | calls, each answered by numbers |
//! | `choosing` | the operations that the dice choose |
//! | `dice` | the same numbers in each run |
//! | `lists` | what both journals say of deliveries |
//! | `notes` | what came about of the dice |
//! | `steps` | tables of calls with their answers, which two pairs go through |

mod agreeing;
mod calls;
mod choosing;
mod dice;
mod growth;
mod lists;
mod notes;
mod passing;
mod random;
mod rejoining;
mod steps;
