//! What an exchange prints as it goes on, and at its end.
use crate::exchange::{ExchangeFault, Received, Sent};
use crate::printing::{Printed, write_taken};
use crate::progress::Watch;
use crate::reason::Reason;
use amqp_conn::{Boxed, Bytes, Tag, Taken};
use std::alloc::Global;
use std::io;
use std::io::Write;

/// Prints what comes of an exchange: an [`Output`].
pub(crate) trait Reports: Watch {
    /// Prints of the message with this payload what is asked for.
    fn show(&mut self, payload: &Bytes) -> Result<(), ExchangeFault>;

    /// Prints why either end has left the link, the session or the connection, on standard error.
    fn tell(&mut self, reason: &Reason);
}

/// The writer that messages are printed to, and who shows progress.
#[derive(Drop)]
pub(crate) struct Output<'a, O, P> {
    alloc: Global,
    printed: Printed,
    out: &'a mut O,
    watch: &'a mut P,
}

impl<'a, O: Write, P: Watch> Output<'a, O, P> {
    pub(crate) fn new(
        alloc: Global,
        printed: Printed,
        out: &'a mut O,
        watch: &'a mut P,
    ) -> Output<'a, O, P> {
        Output {
            alloc,
            printed,
            out,
            watch,
        }
    }
}

impl<O: Write, P: Watch> Watch for Output<'_, O, P> {
    fn note(&mut self, count: u64) {
        self.watch.note(count);
    }

    fn end(&mut self) {
        self.watch.end();
    }

    fn say(&mut self, line: &str) {
        self.watch.say(line);
    }

    fn elapsed(&self) -> u64 {
        self.watch.elapsed()
    }
}

impl<O: Write, P: Watch> Reports for Output<'_, O, P> {
    fn show(&mut self, payload: &Bytes) -> Result<(), ExchangeFault> {
        write_taken(self.alloc, self.printed, payload, self.out)
    }

    fn tell(&mut self, reason: &Reason) {
        if let Ok(line) = format!(in self.alloc; "{reason}") {
            self.watch.say(line.as_str());
        }
    }
}

/// What is still wanted of a message that was taken, once it is printed.
#[derive(Clone, Copy)]
pub(crate) struct Came {
    pub(crate) id: u32,
    pub(crate) tag: Tag,
    pub(crate) is_settled: bool,
    pub(crate) octets: u64,
}

/// Prints the message, and drops it.
pub(crate) fn show_taken<T: Reports>(
    reports: &mut T,
    taken: Boxed<Taken>,
) -> Result<Came, ExchangeFault> {
    let came = came_of(taken.get());
    let Ok(payload) = taken.get().payload.join() else {
        drop(taken);
        return Err(ExchangeFault::NoMemory);
    };
    let shown = reports.show(&payload);
    drop(payload);
    drop(taken);
    match shown {
        Ok(()) => Ok(came),
        Err(fault) => Err(fault),
    }
}

fn came_of(taken: &Taken) -> Came {
    Came {
        id: taken.id,
        tag: taken.tag,
        is_settled: taken.settled,
        octets: taken.payload.len(),
    }
}

/// Writes how many messages were sent, and what became of them.
pub(crate) fn tell_sent<W: Write>(out: &mut W, sent: &Sent) -> Result<(), ExchangeFault> {
    let outcomes = &sent.outcomes;
    let lines = [
        ("sent", sent.count),
        ("accepted", outcomes.accepted),
        ("rejected", outcomes.rejected),
        ("released", outcomes.released),
        ("modified", outcomes.modified),
        ("unknown", outcomes.unknown),
    ];
    write_counts(out, &lines).map_err(ExchangeFault::Out)
}

/// Writes how many messages were taken.
pub(crate) fn tell_received<W: Write>(
    out: &mut W,
    received: Received,
) -> Result<(), ExchangeFault> {
    let lines = [
        ("received", received.count),
        ("octets", received.octets),
        ("unsettled", received.unsettled),
    ];
    write_counts(out, &lines).map_err(ExchangeFault::Out)
}

fn write_counts<W: Write>(out: &mut W, lines: &[(&str, u64)]) -> io::Result<()> {
    for (name, count) in lines {
        writeln!(out, "{name} {count}")?;
    }
    out.flush()
}
