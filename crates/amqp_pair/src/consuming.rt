//! The threads that accept messages.
use crate::end::End;
use crate::ending::{lose, put};
use crate::fault::PairFault;
use crate::gate::Gate;
use crate::reading::LINK;
use amqp_frames::DeliveryState;
use amqp_rules::refusal::Refusal;
use amqp_rules::reply::Taken;
use amqp_shared::{Consumed, Name, Pass, Renewal, Terms, Work, run_consumers_in_batches};
use std::alloc::{AllocError, Global};
use std::sync::Wait;
use std::thread;
use std::thread::Threads;

/// How many deliveries a consumer takes at most beside the first, where they are ready.
const MORE: u32 = 127;

/// Accepts each delivery, and counts the octets of all. It writes what is told of them by itself.
struct Accepting<'a, N: Name, R: Wait> {
    rt: &'a R,
    end: &'a End<N>,
    octets: u64,
}

impl<'a, N: Name, R: Wait> Drop for Accepting<'a, N, R> {
    fn drop(self) {
        let Accepting {
            rt: _,
            end: _,
            octets: _,
        } = self;
    }
}

impl<'a, N: Name, R: Wait> Work for Accepting<'a, N, R> {
    fn consume(&mut self, item: &Taken) -> DeliveryState {
        self.octets = self.octets.saturating_add(item.payload.len());
        DeliveryState::Accepted
    }

    fn told(&mut self) {
        self.end.flush(self.rt);
    }
}

/// What consumers have had.
#[derive(Clone, Copy)]
pub struct Counts {
    pub deliveries: u64,
    /// Of their payloads.
    pub octets: u64,
}

/// What the consumers hand back: their passes, and what they have had; or what stopped one before the connection had ended.
pub type ConsumeOutcome<N> = Result<(Vec<Pass<N>>, Counts), PairFault>;

/// Before a delivery has come.
const NOTHING: Counts = Counts {
    deliveries: 0,
    octets: 0,
};

/// Consumers with a pass each, once the end is ready, until its connection has ended.
pub fn consume_all<N: Name + Send + Sync, R: Threads + Wait + Sync>(
    rt: &R,
    alloc: Global,
    end: &End<N>,
    passes: Vec<Pass<N>>,
    credit: u32,
    gate: &Gate,
) -> ConsumeOutcome<N> {
    if !gate.is_ready(rt) {
        return Ok((passes, NOTHING));
    }
    let done = match jobs_of(alloc, passes, credit) {
        Ok(jobs) => consume_side_by_side(rt, end, jobs),
        Err(AllocError) => Err(AllocError),
    };
    match done {
        Ok(done) => gather(alloc, done),
        Err(AllocError) => {
            lose(rt, end);
            Err(PairFault::NoMemory)
        }
    }
}

/// What a consumer's thread starts with.
#[derive(Drop)]
struct Job<N: Name> {
    alloc: Global,
    pass: Pass<N>,
    credit: u32,
}

fn jobs_of<N: Name>(
    alloc: Global,
    passes: Vec<Pass<N>>,
    credit: u32,
) -> Result<Vec<Job<N>>, AllocError> {
    let mut jobs = Vec::new(alloc);
    for pass in passes {
        let job = Job {
            alloc,
            pass,
            credit,
        };
        put_job(&mut jobs, job)?;
    }
    Ok(jobs)
}

fn put_job<N: Name>(jobs: &mut Vec<Job<N>>, job: Job<N>) -> Result<(), AllocError> {
    match jobs.push(job) {
        Ok(()) => Ok(()),
        Err(_) => Err(AllocError),
    }
}

/// What a consumer's thread hands back.
#[derive(Drop)]
struct Done<N: Name> {
    pass: Pass<N>,
    counts: Counts,
    stopped: Refusal,
}

fn consume_side_by_side<N: Name + Send + Sync, R: Threads + Wait + Sync>(
    rt: &R,
    end: &End<N>,
    jobs: Vec<Job<N>>,
) -> Result<Vec<Result<Done<N>, AllocError>>, AllocError> {
    thread::map_vec(
        rt,
        jobs,
        &|job: Job<N>| -> Result<Done<N>, AllocError> { consume(rt, end, job) },
    )
}

/// Consumes until an operation is refused. Where that is not the connection's end, this consumer ends it, since nobody else will settle what it took.
fn consume<N: Name + Send + Sync, R: Threads + Wait + Sync>(
    rt: &R,
    end: &End<N>,
    job: Job<N>,
) -> Result<Done<N>, AllocError> {
    let done = consume_alone(rt, end, job);
    let is_at_end = match &done {
        Ok(done) => done.stopped == Refusal::NotRunning,
        Err(_) => false,
    };
    if !is_at_end {
        lose(rt, end);
    }
    done
}

fn consume_alone<N: Name + Send + Sync, R: Threads + Wait + Sync>(
    rt: &R,
    end: &End<N>,
    job: Job<N>,
) -> Result<Done<N>, AllocError> {
    let Job {
        alloc,
        pass,
        credit,
    } = job;
    let mut passes = Vec::new(alloc);
    passes.push(pass)?;
    let mut works = Vec::new(alloc);
    works.push(Accepting { rt, end, octets: 0 })?;
    let terms = Terms {
        link: LINK,
        credit,
        renewal: Renewal::AtHalf,
    };
    let mut done = run_consumers_in_batches(rt, &end.shared, passes, works, terms, MORE)?;
    let consumed = done.pop();
    drop(done);
    match consumed {
        Some(consumed) => Ok(done_by(consumed)),
        None => Err(AllocError),
    }
}

/// What is handed back of a consumer: with what the link had left it has consumed all that came.
fn done_by<N: Name, R: Wait>(consumed: Consumed<N, Accepting<'_, N, R>>) -> Done<N> {
    let Consumed {
        pass,
        work,
        count,
        left,
        stopped,
    } = consumed;
    let octets = work.octets;
    drop(work);
    Done {
        pass,
        counts: Counts {
            deliveries: count.saturating_add(left),
            octets,
        },
        stopped,
    }
}

/// All passes, and what all have had.
fn gather<N: Name>(alloc: Global, done: Vec<Result<Done<N>, AllocError>>) -> ConsumeOutcome<N> {
    let mut passes = Vec::new(alloc);
    let mut counts = NOTHING;
    for consumed in done {
        counts = add(&mut passes, counts, consumed)?;
    }
    Ok((passes, counts))
}

/// What the consumers before have had, and this one, whose pass is put behind theirs.
fn add<N: Name>(
    passes: &mut Vec<Pass<N>>,
    counts: Counts,
    consumed: Result<Done<N>, AllocError>,
) -> Result<Counts, PairFault> {
    let Ok(consumed) = consumed else {
        return Err(PairFault::NoMemory);
    };
    let Done {
        pass,
        counts: more,
        stopped,
    } = consumed;
    if stopped != Refusal::NotRunning {
        drop(pass);
        return Err(PairFault::Consume(stopped));
    }
    match put(passes, pass) {
        Ok(()) => Ok(Counts {
            deliveries: counts.deliveries.saturating_add(more.deliveries),
            octets: counts.octets.saturating_add(more.octets),
        }),
        Err(fault) => Err(fault),
    }
}
