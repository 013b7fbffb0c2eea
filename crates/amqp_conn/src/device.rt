//! Sources and sinks of octets.
ghost use Rattle.std.specs.Prelude.{◌≡◌, ◌≤◌, ◌<◌, ◌+◌, ◌-◌, ◌^◌, None, Some, length, IfOk, OnOk, OnErr};
ghost use Rattle.std.specs.Io.KnownBytes.{ReadConsumes, Appends};
ghost use Rattle.amqp_conn.specs.Pumping.{AppendsFront};

use std::io::{Error, ErrorKind, Read, Write};
use thiserror::Error;

/// The error of a device that failed. Only the device itself knows why ([`FromStd::take_error`]).
#[derive(Clone, Copy, Debug, PartialEq, Eq, Error)]
#[error("a device failed")]
pub struct Failed;

/// A source of octets.
pub trait Source {
    ghost use Rattle.std.specs.Prelude.{ℕ, List, Option};

    /// The octets that reads will return from here on, if they are known.
    ghost remaining: { Self → Option (List ℕ) };

    /// How many reads have failed.
    ghost failed: { Self → ℕ };

    /// Reads some octets into the front of the buffer, and returns how many: 0 at the end of the input.
    ///
    /// # Errors
    ///
    /// [`Failed`] if the device failed.
    fn read(&mut self, buffer: &mut [u8]) -> Result<usize, Failed>
        requires { failed self.old < 2 ^ 64 - 1 }
        ensures bound { IfOk result (λ n. n ≤ length buffer.new) }
        ensures octets { ReadConsumes (remaining self.old) (remaining self.new) result buffer.new }
        ensures ok { OnOk result (failed self.new ≡ failed self.old) }
        ensures err { OnErr result (failed self.new ≡ failed self.old + 1) };

    /// Returns how many reads have failed.
    fn failures(&self) -> u64
        ensures { result ≡ failed self.now };
}

/// A sink of octets.
pub trait Sink {
    ghost use Rattle.std.specs.Prelude.{ℕ, List, Option};

    /// The octets that were written, if they are known.
    ghost written: { Self → Option (List ℕ) };

    /// How many writes have failed.
    ghost failed: { Self → ℕ };

    /// Writes all octets, and buffers none: nothing else flushes the sink.
    ///
    /// # Errors
    ///
    /// [`Failed`] if the device failed; a front of the octets may have been written then.
    fn write_all(&mut self, octets: &[u8]) -> Result<(), Failed>
        requires { failed self.old < 2 ^ 64 - 1 }
        ensures octets { OnOk result (Appends (written self.old) (written self.new) octets.now) }
        ensures front { OnErr result (AppendsFront (written self.old) (written self.new) octets.now) }
        ensures ok { OnOk result (failed self.new ≡ failed self.old) }
        ensures err { OnErr result (failed self.new ≡ failed self.old + 1) };

    /// Returns how many writes have failed.
    fn failures(&self) -> u64
        ensures { result ≡ failed self.now };
}

/// A source over any `Read`, or a sink over any `Write`. It keeps the error of the call that failed last.
#[derive(Drop, Debug)]
pub struct FromStd<T> {
    device: T,
    failures: u64,
    error: Option<Error>,
}

impl<T> FromStd<T> {
    /// Wraps the device. No call has failed yet.
    pub fn new(device: T) -> FromStd<T>
        ensures { result ≡ record { device = device; failures = 0; error = None } }
    {
        FromStd {
            device,
            failures: 0,
            error: None,
        }
    }

    /// Returns the device.
    pub fn into_inner(self) -> T
        ensures { result ≡ self.device }
    {
        let FromStd { device, .. } = self;
        device
    }

    /// Removes and returns the device's own error, of the call that failed last.
    pub fn take_error(&mut self) -> Option<Error>
        ensures told { result ≡ self.old.error }
        ensures kept { self.new ≡ record { device = self.old.device; failures = self.old.failures; error = None } }
    {
        self.error.take()
    }

    fn fail(&mut self, error: Error) -> Failed
        requires { self.old.failures < 2 ^ 64 - 1 }
        ensures { self.new ≡ record { device = self.old.device; failures = self.old.failures + 1; error = Some error } }
    {
        self.failures += 1;
        self.error = Some(error);
        Failed
    }
}

impl<T: Read> Source for FromStd<T> {
    ghost remaining = { λ s. T.remaining s.device };

    ghost failed = { λ s. s.failures };

    fn read(&mut self, buffer: &mut [u8]) -> Result<usize, Failed> {
        match self.device.read(buffer) {
            Ok(count) => Ok(count),
            Err(error) => Err(self.fail(error)),
        }
    }

    fn failures(&self) -> u64 {
        self.failures
    }
}

impl<T: Write> Sink for FromStd<T> {
    ghost written = { λ s. T.contents s.device };

    ghost failed = { λ s. s.failures };

    fn write_all(&mut self, octets: &[u8]) -> Result<(), Failed> {
        match write_whole(&mut self.device, octets) {
            Ok(()) => Ok(()),
            Err(error) => Err(self.fail(error)),
        }
    }

    fn failures(&self) -> u64 {
        self.failures
    }
}

/// Stands in for `Write::write_all`, whose contract does not say that a front was written if it fails.
fn write_whole<T: Write>(device: &mut T, octets: &[u8]) -> Result<(), Error>
    ensures octets { OnOk result (Appends (T.contents device.old) (T.contents device.new) octets.now) }
    ensures front { OnErr result (AppendsFront (T.contents device.old) (T.contents device.new) octets.now) }
{
    let mut written = 0;
    for _ in 0..u64::MAX {
        if written == octets.len() {
            return Ok(());
        }
        match device.write(&octets[written..]) {
            Ok(0) => return Err(Error::from(ErrorKind::WriteZero)),
            Ok(count) => written += count,
            Err(error) => {
                if error.kind() != ErrorKind::Interrupted {
                    return Err(error);
                }
            }
        }
    }
    Err(Error::from(ErrorKind::Interrupted))
}
