//! Two ends in this process, each with a thread of its own, which drives all of its connections.

use crate::hand::Hand;
use crate::sockets::{EVENTS, Ends, Sockets, Totals, connect_senders, drive, loopback, new_driver};
use amqp_ready::Driver;
use anyhow::bail;
use mio::Poll;
use mio::net::TcpListener;
use std::io::Write;
use std::net::Net;
use std::rt::Clock;
use std::sync::Wait;
use std::thread;
use std::thread::Threads;

/// Sends the messages over all connections, and tells what was done, in four lines.
pub fn run_drivers<R, W>(rt: &R, sockets: Sockets, writer: &mut W) -> anyhow::Result<()>
where
    R: AllocGlobal + Clock + Net + Threads + Wait + Sync,
    W: Write,
{
    let totals = send_and_receive(rt, sockets)?;
    if totals.faults > 0 {
        bail!("{} ends of connections failed", totals.faults);
    }
    let ended = if sockets.messages.settled {
        totals.taken
    } else {
        totals.learnt
    };
    writeln!(writer, "queued {}", totals.begun)?;
    writeln!(writer, "consumed {}", totals.taken)?;
    writeln!(writer, "accepted {}", totals.learnt)?;
    writeln!(writer, "left {}", totals.begun.saturating_sub(ended))?;
    Ok(writer.flush()?)
}

/// All that sends connects before the thread that receives is there: so this one has as many connections to wait for as it is told.
fn send_and_receive<R>(rt: &R, sockets: Sockets) -> anyhow::Result<Totals>
where
    R: AllocGlobal + Clock + Net + Threads + Wait + Sync,
{
    let listener = TcpListener::bind(rt, loopback(sockets.port))?;
    let there = listener.local_addr()?;
    let mut driver = new_driver(rt)?;
    let ran = match connect_senders(rt, &mut driver, there, sockets) {
        Ok(()) => receive_beside(rt, &mut driver, listener, sockets),
        Err(error) => Err(error),
    };
    drop(driver);
    ran
}

/// This thread sends, beside one that receives.
fn receive_beside<R>(
    rt: &R,
    driver: &mut Driver<Hand>,
    listener: TcpListener,
    sockets: Sockets,
) -> anyhow::Result<Totals>
where
    R: AllocGlobal + Clock + Net + Threads + Wait + Sync,
{
    let poll = Poll::new(rt)?;
    thread::scope(thread::scope_env(), rt, |scope| -> anyhow::Result<Totals> {
        match scope.spawn(move || receive(rt, poll, listener, sockets)) {
            Ok(receiving) => {
                let sent = drive_one(rt, driver, sockets, Ends::Sender);
                let received = receiving.join(rt);
                Ok(sent?.with(received?))
            }
            Err(unmade) => {
                drop(unmade);
                bail!("there is no thread for the end that receives")
            }
        }
    })
}

/// Listens, and receives.
fn receive<R>(rt: &R, poll: Poll, listener: TcpListener, sockets: Sockets) -> anyhow::Result<Totals>
where
    R: AllocGlobal + Clock,
{
    let mut driver = Driver::over(poll, rt.alloc(), EVENTS)?;
    let received = match driver.listen(listener) {
        Ok(()) => drive_one(rt, &mut driver, sockets, Ends::Receiver),
        Err(error) => Err(error.into()),
    };
    drop(driver);
    received
}

/// What the connections of one end have done.
fn drive_one<R>(
    rt: &R,
    driver: &mut Driver<Hand>,
    sockets: Sockets,
    ends: Ends,
) -> anyhow::Result<Totals>
where
    R: AllocGlobal + Clock,
{
    let (totals, _) = drive(rt, driver, Sockets { ends, ..sockets })?;
    Ok(totals)
}
