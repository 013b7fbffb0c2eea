//! Records what goes over a stream.
use std::alloc::{AllocError, Global};
use std::collections::VecDeque;

/// The direction in which octets went over a stream.
#[derive(Clone, Copy, Debug, PartialEq, Eq)]
pub enum Way {
    /// They were read.
    In,
    /// They were written.
    Out,
}

/// One record of what went over a stream.
#[derive(Drop)]
pub enum Recorded {
    /// One call moved these octets.
    Octets(Way, Vec<u8>),
    /// Memory was refused: from here on nothing is recorded.
    Cut,
}

/// A record of what went over a stream; the oldest part is taken first.
#[derive(Drop)]
pub(crate) struct Tap {
    alloc: Global,
    recorded: VecDeque<Recorded>,
    end: End,
}

/// Whether a record goes on.
#[derive(Clone, Copy, PartialEq, Eq)]
enum End {
    Open,
    /// Memory was refused; `take` has not reported it yet.
    Cut,
    Told,
}

impl Tap {
    pub(crate) fn new(alloc: Global) -> Tap {
        Tap {
            alloc,
            recorded: VecDeque::new(alloc),
            end: End::Open,
        }
    }

    /// Records the first `count` octets of `first` followed by `second`. If memory is refused the record ends.
    pub(crate) fn note(&mut self, way: Way, first: &[u8], second: &[u8], count: usize) {
        if count != 0 && self.end == End::Open && self.keep(way, first, second, count).is_err() {
            self.end = End::Cut;
        }
    }

    fn keep(
        &mut self,
        way: Way,
        first: &[u8],
        second: &[u8],
        count: usize,
    ) -> Result<(), AllocError> {
        let of_first = count.min(first.len());
        let of_second = (count - of_first).min(second.len());
        self.recorded.reserve(1)?;
        let octets = joined(self.alloc, &first[..of_first], &second[..of_second])?;
        match self.recorded.push_back(Recorded::Octets(way, octets)) {
            Ok(()) => Ok(()),
            Err(_) => Err(AllocError),
        }
    }

    /// Removes and returns the oldest part that was not taken.
    pub(crate) fn take(&mut self) -> Option<Recorded> {
        if let Some(recorded) = self.recorded.pop_front() {
            return Some(recorded);
        }
        if self.end == End::Cut {
            self.end = End::Told;
            return Some(Recorded::Cut);
        }
        None
    }
}

fn joined(alloc: Global, first: &[u8], second: &[u8]) -> Result<Vec<u8>, AllocError> {
    let mut octets = Vec::with_capacity(alloc, first.len().saturating_add(second.len()))?;
    octets.extend_from_slice(first)?;
    octets.extend_from_slice(second)?;
    Ok(octets)
}
