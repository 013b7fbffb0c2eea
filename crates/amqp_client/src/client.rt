//! A connection with its devices.
ghost use Rattle.std.specs.Prelude.{◌<◌, ◌-◌, ◌^◌};

use crate::attaching::attach;
use crate::cause::note_all;
use crate::end::End;
use crate::error::ClientError;
use crate::fault::ClientFault;
use crate::session::Session;
use amqp_conn::{Config, Failed, FromStd, Pump, PumpEnd, PumpFault, Role, Sink, Source, Unit};
use std::alloc::Global;
use std::io;
use std::io::{ErrorKind, Read, Write};

/// One end of a connection over a reader and a writer, for a program that does one thing after the other.
///
/// [`Client::connect`] makes one over TCP, [`Client::over`] one over any reader and writer. Links are opened by [`Client::sender`] and [`Client::receiver`], and named
/// by the values that these return. Each call waits for the peer; none starts a thread. The journal's entries are forgotten as the connection goes on.
///
/// A read may end with `WouldBlock`, `TimedOut` or `Interrupted` if nothing came for a [`TICK`](crate::TICK): such reads are the clock by which a heartbeat is sent
/// (part 2, 2.4.5) and a silent peer is given up. Heartbeats are sent by the calls that wait, so a program that does something else for long calls
/// [`Session::turn`] now and then.
///
/// # Examples
///
/// ```text
/// let mut client = Client::connect(&rt, rt.alloc(), ("localhost", 5672), &Options::new("my_sender"))?;
/// let queue = client.sender("queue")?;
/// let message = Message::text(rt.alloc(), "hello")?;
/// println!(rt; "{:?}", client.send(queue, &message)?)?;
/// client.close()?;
/// ```
pub struct Client<R, W> {
    end: End,
    pump: Pump,
    source: FromStd<R>,
    sink: FromStd<W>,
    /// The error of the device that failed last.
    failure: io::Error,
}

// By hand, so that a crate that owns one does not prove its parts' drops again.
impl<R: Drop, W: Drop> Drop for Client<R, W> {
    fn drop(self) {
        let Client {
            end,
            pump,
            source,
            sink,
            failure: _,
        } = self;
        drop(end);
        drop(pump);
        drop(source);
        drop(sink);
    }
}

/// What the header of a SASL layer begins with (part 5, 5.3.1). A frame that begins so has 1095586128 octets.
const SASL: [u8; 5] = [0x41, 0x4d, 0x51, 0x50, 3];

impl<R: Drop, W: Drop> Client<R, W> {
    /// Returns a connection of these settings over the devices. Nothing was written or read yet. A peer from which nothing comes for `patience` seconds is given up;
    /// `None`: it is waited for without a limit.
    ///
    /// # Errors
    ///
    /// `Start` if a setting is out of its limits, or memory runs out.
    pub fn new(
        alloc: Global,
        config: Config,
        patience: Option<u32>,
        reader: R,
        writer: W,
    ) -> Result<Client<R, W>, ClientFault> {
        match End::new(alloc, config, patience) {
            Ok(end) => Ok(Client {
                end,
                pump: Pump::new(),
                source: FromStd::new(reader),
                sink: FromStd::new(writer),
                failure: io::Error::from(ErrorKind::Other),
            }),
            Err(fault) => Err(fault),
        }
    }
}

impl<R: Read, W: Write> Session for Client<R, W> {
    fn end(&self) -> &End {
        &self.end
    }

    fn end_mut(&mut self) -> &mut End {
        &mut self.end
    }

    fn turn(&mut self) -> Result<(), ClientFault> {
        match self.run_once() {
            Ok(PumpEnd::TurnsOver) => self.end.waits.hear(),
            Ok(PumpEnd::Closed) => return Err(ClientFault::Closed),
            Ok(PumpEnd::EndOfInput) => return Err(ClientFault::EndOfInput),
            Err(fault) => self.wait_on(fault)?,
        }
        self.end.keep_up();
        Ok(())
    }

    fn write_out(&mut self) {
        match self.run_once() {
            Ok(_) => {}
            Err(_) => {}
        }
    }
}

impl<R: Read, W: Write> Client<R, W> {
    fn run_once(&mut self) -> Result<PumpEnd, PumpFault> {
        if self.source.failures() == u64::MAX {
            return Err(PumpFault::Read);
        }
        if self.sink.failures() == u64::MAX {
            return Err(PumpFault::Write);
        }
        self.end.conn.forget();
        let driven = self.pump.drive(
            &mut self.source,
            &mut self.sink,
            &mut self.end.conn,
            &mut self.end.partings,
            1,
        );
        note_all(&mut self.end.links, self.end.conn.logged().journal());
        driven
    }

    /// A read that ended in vain is no fault, until there were too many in a row.
    fn wait_on(&mut self, fault: PumpFault) -> Result<(), ClientFault> {
        if fault == PumpFault::Write {
            self.note_failure();
        }
        if fault != PumpFault::Read || !self.has_waited() {
            return Err(self.fault_of(fault));
        }
        if self.end.waits.is_over() {
            self.leave();
            return Err(ClientFault::Silent);
        }
        Ok(())
    }

    /// If the connection failed by the peer's header, what was read and not fed shows whether that was the header of a SASL layer.
    fn fault_of(&self, fault: PumpFault) -> ClientFault {
        if self.pump.rest().starts_with(&SASL) {
            ClientFault::Sasl
        } else {
            ClientFault::Pump(fault)
        }
    }

    /// Whether the read that failed ended because nothing came, or the process had been stopped.
    fn has_waited(&mut self) -> bool {
        match self.source.take_error() {
            Some(error) => {
                self.failure = error;
                matches!(
                    error.kind(),
                    ErrorKind::WouldBlock | ErrorKind::TimedOut | ErrorKind::Interrupted
                )
            }
            None => false,
        }
    }

    /// Closes the connection of a silent peer, with an error if the peer still reads. Its answer is not awaited.
    fn leave(&mut self) {
        if self.end.close_silent() {
            self.write_out();
        }
    }

    /// Keeps the error of a write that failed.
    fn note_failure(&mut self) {
        if let Some(error) = self.sink.take_error() {
            self.failure = error;
        }
    }

    /// Writes what waits to go out behind what was done, and reads nothing.
    pub(crate) fn flushed<T: Copy>(
        &mut self,
        done: Result<T, ClientFault>,
    ) -> Result<T, ClientFault> {
        match done {
            Ok(value) => match self.flush() {
                Ok(()) => Ok(value),
                Err(fault) => Err(fault),
            },
            Err(fault) => Err(fault),
        }
    }

    fn flush(&mut self) -> Result<(), ClientFault> {
        for _ in 0..u64::MAX {
            match self.end.conn.pop_unit() {
                Some(unit) => self.write_unit(unit)?,
                None => break,
            }
        }
        Ok(())
    }

    fn write_unit(&mut self, unit: Unit) -> Result<(), ClientFault> {
        let is_written = self.sink.failures() < u64::MAX
            && write_slices(&mut self.sink, &unit).is_ok();
        drop(unit);
        if is_written {
            return Ok(());
        }
        self.note_failure();
        Err(ClientFault::Pump(PumpFault::Write))
    }

    /// Opens a link with this address at the peer, and returns its number.
    pub(crate) fn open_link(&mut self, role: Role, address: &str) -> Result<u32, ClientError> {
        let place = self.end.links.len();
        match attach(self, role, address) {
            Ok(link) => Ok(link),
            Err(fault) => {
                let link = self.end.links.number_at(place).unwrap_or(u32::MAX);
                Err(self.error_on(link, fault))
            }
        }
    }

    /// Returns the error of a call on this link that was stopped by the fault.
    pub(crate) fn error_on(&self, link: u32, fault: ClientFault) -> ClientError {
        match fault {
            ClientFault::Pump(PumpFault::Read) => ClientError::Read(self.failure),
            ClientFault::Pump(PumpFault::Write) => ClientError::Write(self.failure),
            fault => self.end.error_on(link, fault),
        }
    }
}

/// Writes a unit, slice by slice.
fn write_slices<K: Sink>(sink: &mut K, unit: &Unit) -> Result<(), Failed>
    requires { K.failed sink.old < 2 ^ 64 - 1 }
{
    let (head, rest) = unit.bytes.slices();
    match sink.write_all(head) {
        Ok(()) => {}
        Err(failed) => return Err(failed),
    }
    if rest.is_empty() {
        return Ok(());
    }
    match sink.write_all(rest) {
        Ok(()) => Ok(()),
        Err(failed) => Err(failed),
    }
}
