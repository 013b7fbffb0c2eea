//! Threads that take deliveries, consume them and settle them.
ghost use Rattle.std.specs.Prelude.{◌≡◌, ℕ, ◌<◌, map, slice_index_or, vec_len, IfOk, IfSome};
ghost use Rattle.amqp_shared.specs.Consuming.{ConsumesLeft, Finishes, MakesSteps};
ghost use Rattle.amqp_shared.specs.Batching.{RunsBatches, FinishesBatches};
ghost use Rattle.amqp_shared.specs.declared.renewal.Renewal.TheVariants as renewal;
ghost use Rattle.amqp_shared.specs.Passes.{Tally};

use crate::batches::{Batch, settle_batch, take_batch};
use crate::name::Name;
use crate::pass::Pass;
use crate::renewal::Renewal;
use crate::shared::Shared;
use amqp_conn::Left;
use amqp_frames::{DeliveryState, Role};
use amqp_rules::refusal::Refusal;
use amqp_rules::reply::Taken;
use std::alloc::AllocError;
use std::sync::Wait;
use std::thread;
use std::thread::Threads;

/// What a consumer does with a delivery.
///
/// An implementation may specify by `consumes` which state it returns for which delivery, and how it changes. The
/// contract of [`run_consumers`] describes what was done with each delivery in these terms.
pub trait Work {
    ghost use Rattle.std.specs.Prelude.{⊤};
    ghost use Rattle.amqp_performatives.specs.declared.state.DeliveryState.{DeliveryState};
    ghost use Rattle.amqp_rules.specs.declared.reply.Taken.{Taken};

    ghost consumes: { Self → Taken → DeliveryState → Self → Type 0 } = { λ _ _ _ _. ⊤ };

    /// Consumes a delivery, and returns its state (part 3, 3.4). Called without the lock.
    fn consume(&mut self, item: &Taken) -> DeliveryState
        ensures { Self.consumes self.old item.now result self.new };

    /// Called without the lock after each batch: the states were sent and due credit was granted, or an operation was
    /// refused on the way.
    ///
    /// A program whose consumers write their units themselves writes them here. The default does nothing.
    fn told(&mut self)
        ensures { self.new ≡ self.old }
    {}
}

/// What a consumer returns when it has stopped.
#[derive(Drop)]
pub struct Consumed<N: Name, W> {
    /// Its pass, with the steps that it made.
    pub pass: Pass<N>,
    /// Its work.
    pub work: W,
    /// How many deliveries it took and consumed.
    pub count: u64,
    /// How many it then consumed that the link had left. They were no steps, and their states are not sent.
    pub left: u64,
    /// The refusal that ended it.
    pub stopped: Refusal,
}

/// The terms on which consumers take deliveries.
#[derive(Clone, Copy, Debug, PartialEq, Eq)]
pub struct Terms {
    /// The number of the link.
    pub link: u32,
    /// The link's credit after each grant, in deliveries.
    ///
    /// Deliveries that wait to be taken are not counted: if the peer is faster than its consumers, more and more
    /// deliveries wait.
    pub credit: u32,
    /// When credit is granted again.
    pub renewal: Renewal,
}

/// The arguments of a consumer's thread.
#[derive(Drop)]
struct Job<N: Name, W> {
    pass: Pass<N>,
    work: W,
    terms: Terms,
    batch: Batch,
}

/// A consumer that was stopped, before it consumes what the link left.
#[derive(Drop)]
struct Stopped<N: Name, W> {
    pass: Pass<N>,
    work: W,
    count: u64,
    stopped: Refusal,
}

fn consume_all<N: Name, W: Work, R: Wait>(
    rt: &R,
    shared: &Shared<N>,
    job: Job<N, W>,
) -> Stopped<N, W>
    ensures { RunsBatches W.consumes job.terms job.batch.more (record { pass = job.pass; work = job.work }) result.count result.stopped (record { pass = result.pass; work = result.work }) }
{
    let Job {
        pass,
        work,
        terms,
        batch,
    } = job;
    let (mut pass, mut work, mut batch) = (pass, work, batch);
    let mut count = 0u64;
    for _ in rt.forever() {
        if let Err(stopped) = take_batch(rt, shared, &mut pass, terms.link, &mut batch) {
            return Stopped {
                pass,
                work,
                count,
                stopped,
            };
        }
        count += batch.len() as u64;
        batch.judge_all(&mut work);
        if let Err(stopped) = settle_batch(
            rt,
            shared,
            &mut pass,
            &mut batch,
            terms.link,
            terms.credit,
            terms.renewal,
        ) {
            // Some of the states may have gone out before the refusal.
            work.told();
            return Stopped {
                pass,
                work,
                count,
                stopped,
            };
        }
        work.told();
    }
    unreachable!()
}

/// Returns the next delivery that the link left; `None` if there is none, or if memory runs out.
fn next_left<N: Name, R: Wait>(rt: &R, shared: &Shared<N>, link: u32) -> Option<Taken>
    ensures { IfSome result (λ t. t.link ≡ link) }
{
    let mut guard = shared.lock(rt);
    match shared.pop_left_by(&mut guard, Role::Receiver, link) {
        Ok(Some(Left::Delivery(name, item))) => {
            drop(name);
            Some(item.into_inner())
        }
        _ => None,
    }
}

/// Returns how many deliveries of those that the link left were consumed: all, unless memory runs out.
fn consume_left<N: Name, W: Work, R: Wait>(
    rt: &R,
    shared: &Shared<N>,
    work: &mut W,
    link: u32,
) -> u64
    ensures { ConsumesLeft W.consumes link result work.old work.new }
{
    let mut count = 0u64;
    for _ in 0..u64::MAX {
        let Some(item) = next_left(rt, shared, link) else {
            return count;
        };
        let state = work.consume(&item);
        drop(state);
        drop(item);
        count += 1;
    }
    count
}

fn consume<N: Name, W: Work, R: Wait>(rt: &R, shared: &Shared<N>, job: Job<N, W>) -> Consumed<N, W>
    ensures { FinishesBatches W.consumes job.terms job.batch.more (record { pass = job.pass; work = job.work }) result.count result.left result.stopped (record { pass = result.pass; work = result.work }) }
{
    let link = job.terms.link;
    let Stopped {
        pass,
        work,
        count,
        stopped,
    } = consume_all(rt, shared, job);
    let mut work = work;
    let left = consume_left(rt, shared, &mut work, link);
    Consumed {
        pass,
        work,
        count,
        left,
        stopped,
    }
}

/// Runs one consumer thread for each work, until an operation of each was refused, and returns what they return.
///
/// A consumer takes deliveries of the link as they come. It consumes each, sends its state unless the delivery came
/// settled, and sets the link's credit to `credit` again. Its pass records these calls and their answers: a step for
/// each delivery that it took, one for each state that it sent, and one for each grant. A stopped consumer also
/// consumes the deliveries that the link left, if the link is gone or the connection has ended, and sends no states of
/// them. The call blocks as long as the connection runs and refuses nothing. With no passes and no works it returns an
/// empty list.
///
/// A consumer grants credit only after a delivery that it consumed. If deliveries that nobody takes (because they are
/// aborted or resumed) use up the credit, the thread that feeds must grant it again, or the consumers wait for ever.
/// The same holds if a consumer is stopped by a state that it could not send (`FrameTooBig`, or memory runs out),
/// because it does not grant the credit of that delivery.
///
/// # Errors
///
/// `AllocError` if memory runs out. The passes and works are lost then, and the steps that the consumers made remain.
pub fn run_consumers<N: Name + Send + Sync, W: Work + Send + Drop, R: Threads + Wait + Sync>(
    rt: &R,
    shared: &Shared<N>,
    passes: Vec<Pass<N>>,
    works: Vec<W>,
    link: u32,
    credit: u32,
) -> Result<Vec<Consumed<N, W>>, AllocError>
    requires { vec_len passes ≡ vec_len works }
    ensures len { IfOk result (λ v. vec_len v ≡ vec_len passes) }
    ensures steps { IfOk result (λ v. (i : ℕ) (p : Tally) (d : _) → i < vec_len passes → MakesSteps (slice_index_or passes.items i p).made (slice_index_or v.items i d).count (slice_index_or v.items i d).pass.made) }
    ensures each { IfOk result (λ v. (i : ℕ) (p : Tally) (w : _) (d : _) → i < vec_len passes → Finishes W.consumes link credit renewal.Each (record { pass = slice_index_or passes.items i p; work = slice_index_or works.items i w }) (slice_index_or v.items i d).count (slice_index_or v.items i d).left (slice_index_or v.items i d).stopped (record { pass = (slice_index_or v.items i d).pass; work = (slice_index_or v.items i d).work })) }
{
    run_consumers_with(rt, shared, passes, works, link, credit, Renewal::Each)
}

/// Runs consumers as [`run_consumers`] does, but grants credit only as `renewal` says.
///
/// [`Renewal::AtHalf`] and [`Renewal::AtZero`] send fewer flows than [`Renewal::Each`].
///
/// # Errors
///
/// `AllocError` as for [`run_consumers`].
pub fn run_consumers_with<N: Name + Send + Sync, W: Work + Send + Drop, R: Threads + Wait + Sync>(
    rt: &R,
    shared: &Shared<N>,
    passes: Vec<Pass<N>>,
    works: Vec<W>,
    link: u32,
    credit: u32,
    renewal: Renewal,
) -> Result<Vec<Consumed<N, W>>, AllocError>
    requires { vec_len passes ≡ vec_len works }
    ensures len { IfOk result (λ v. vec_len v ≡ vec_len passes) }
    ensures steps { IfOk result (λ v. (i : ℕ) (p : Tally) (d : _) → i < vec_len passes → MakesSteps (slice_index_or passes.items i p).made (slice_index_or v.items i d).count (slice_index_or v.items i d).pass.made) }
    ensures each { IfOk result (λ v. (i : ℕ) (p : Tally) (w : _) (d : _) → i < vec_len passes → Finishes W.consumes link credit renewal (record { pass = slice_index_or passes.items i p; work = slice_index_or works.items i w }) (slice_index_or v.items i d).count (slice_index_or v.items i d).left (slice_index_or v.items i d).stopped (record { pass = (slice_index_or v.items i d).pass; work = (slice_index_or v.items i d).work })) }
{
    let terms = Terms {
        link,
        credit,
        renewal,
    };
    run_consumers_in_batches(rt, shared, passes, works, terms, 0)
}

/// Runs consumers as [`run_consumers_with`] does, but in batches.
///
/// Under one lock, a consumer takes a delivery and up to `more` others that are ready. It consumes them without the
/// lock. Under one lock, it sends their states, with one disposition for deliveries in the same state whose ids are
/// consecutive (part 2, 2.7.6), and grants the credit once if it is due. Its pass has a step for each delivery that it
/// took, one for each disposition, and one for each grant. Room for a whole batch is allocated for each consumer before
/// any of them starts.
///
/// # Errors
///
/// `AllocError` as for [`run_consumers`].
pub fn run_consumers_in_batches<
    N: Name + Send + Sync,
    W: Work + Send + Drop,
    R: Threads + Wait + Sync,
>(
    rt: &R,
    shared: &Shared<N>,
    passes: Vec<Pass<N>>,
    works: Vec<W>,
    terms: Terms,
    more: u32,
) -> Result<Vec<Consumed<N, W>>, AllocError>
    requires { vec_len passes ≡ vec_len works }
    ensures len { IfOk result (λ v. vec_len v ≡ vec_len passes) }
    ensures steps { IfOk result (λ v. (i : ℕ) (p : Tally) (d : _) → i < vec_len passes → MakesSteps (slice_index_or passes.items i p).made (slice_index_or v.items i d).count (slice_index_or v.items i d).pass.made) }
    ensures each { IfOk result (λ v. (i : ℕ) (p : Tally) (w : _) (d : _) → i < vec_len passes → FinishesBatches W.consumes terms more (record { pass = slice_index_or passes.items i p; work = slice_index_or works.items i w }) (slice_index_or v.items i d).count (slice_index_or v.items i d).left (slice_index_or v.items i d).stopped (record { pass = (slice_index_or v.items i d).pass; work = (slice_index_or v.items i d).work })) }
{
    match jobs_of(passes, works, terms, more) {
        Ok(jobs) => run_jobs(rt, shared, jobs),
        Err(error) => Err(error),
    }
}

fn jobs_of<N: Name, W: Drop>(
    passes: Vec<Pass<N>>,
    works: Vec<W>,
    terms: Terms,
    more: u32,
) -> Result<Vec<Job<N, W>>, AllocError>
    requires { vec_len passes ≡ vec_len works }
    ensures passes { IfOk result (λ jobs. map (λ job. job.pass) jobs.items ≡ passes.items) }
    ensures works { IfOk result (λ jobs. map (λ job. job.work) jobs.items ≡ works.items) }
    ensures terms { IfOk result (λ jobs. map (λ job. job.terms) jobs.items ≡ map (λ (p : Tally). terms) passes.items) }
    ensures more { IfOk result (λ jobs. map (λ job. job.batch.more) jobs.items ≡ map (λ (p : Tally). more) passes.items) }
{
    let alloc = *passes.allocator();
    let mut jobs = Vec::with_capacity(alloc, passes.len())?;
    for (pass, work) in passes.into_iter().zip(works) {
        let batch = Batch::new(alloc, more)?;
        jobs.push(Job {
            pass,
            work,
            terms,
            batch,
        })?;
    }
    Ok(jobs)
}

fn run_jobs<N: Name + Send + Sync, W: Work + Send + Drop, R: Threads + Wait + Sync>(
    rt: &R,
    shared: &Shared<N>,
    jobs: Vec<Job<N, W>>,
) -> Result<Vec<Consumed<N, W>>, AllocError>
    ensures len { IfOk result (λ v. vec_len v ≡ vec_len jobs) }
    ensures each { IfOk result (λ v. (i : ℕ) (j : _) (d : _) → i < vec_len jobs → FinishesBatches W.consumes (slice_index_or jobs.items i j).terms (slice_index_or jobs.items i j).batch.more (record { pass = (slice_index_or jobs.items i j).pass; work = (slice_index_or jobs.items i j).work }) (slice_index_or v.items i d).count (slice_index_or v.items i d).left (slice_index_or v.items i d).stopped (record { pass = (slice_index_or v.items i d).pass; work = (slice_index_or v.items i d).work })) }
{
    thread::map_vec(
        rt,
        jobs,
        &|job: Job<N, W>| -> Consumed<N, W>
            ensures { FinishesBatches W.consumes job.terms job.batch.more (record { pass = job.pass; work = job.work }) result.count result.left result.stopped (record { pass = result.pass; work = result.work }) }
        { consume(rt, shared, job) },
    )
}
