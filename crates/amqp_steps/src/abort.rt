//! An unfinished delivery that is given up (part 2, 2.7.5).
use crate::onlink::OnLink;

/// An unfinished delivery that is given up: its id, and its link as it will be.
#[derive(Clone, Copy)]
pub struct Aborted {
    pub id: u32,
    pub on: OnLink,
}
