//! The threads of an end: its reader, the one that writes for it, and this one.
use crate::beside::beside;
use crate::end::End;
use crate::ending::give_up;
use crate::fault::PairFault;
use crate::gate::Gate;
use crate::reading::{ReadFault, ReadOutcome, Reader, read_end};
use crate::writing::write_end;
use amqp_shared::Name;
use std::io;
use std::sync::Wait;
use std::thread::Threads;

/// What the threads of an end gave, its reader and its work; and whether the system made all of them.
pub type Ran<N, D> = (ReadOutcome<N>, D, bool);

/// The reader, beside the thread that writes for it and the end's work. With no thread for it the end is given up, and it reads to the end behind the others.
pub fn run_threads<N, R, W, D>(
    rt: &R,
    end: &End<N>,
    reader: Reader<N>,
    gate: &Gate,
    work: W,
) -> Ran<N, D>
where
    N: Name + Send + Sync,
    R: Threads + Wait + Sync,
    W: FnOnce() -> D,
    requires { W.pre work }
{
    let (read, (done, is_written), is_read) = beside(
        rt,
        move || read_end(rt, end, reader),
        move |is_read| -> (D, bool)
            requires { W.pre work }
        {
            if !is_read {
                give_up(rt, end, gate);
            }
            write_and_work(rt, end, gate, work)
        },
    );
    (read, done, is_read && is_written)
}

/// The thread that writes for the reader, beside the work, and whether it was made. With none the end is given up, and it writes behind the work.
fn write_and_work<N, R, W, D>(rt: &R, end: &End<N>, gate: &Gate, work: W) -> (D, bool)
where
    N: Name + Send + Sync,
    R: Threads + Wait + Sync,
    W: FnOnce() -> D,
    requires { W.pre work }
{
    let ((), done, is_written) = beside(
        rt,
        move || write_end(rt, end),
        move |is_written| -> D
            requires { W.pre work }
        {
            if !is_written {
                give_up(rt, end, gate);
            }
            work()
        },
    );
    (done, is_written)
}

/// What the work came to, unless the reader or the writer failed, or a thread was not made.
pub fn outcome<T: Drop>(
    is_made: bool,
    read: Result<(), ReadFault>,
    written: io::Result<()>,
    done: Result<T, PairFault>,
) -> Result<T, PairFault> {
    if !is_made {
        return Err(PairFault::Thread);
    }
    read.map_err(PairFault::Read)?;
    written.map_err(PairFault::Write)?;
    done
}
