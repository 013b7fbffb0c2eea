//! Devices whose frames are printed, and whose errors are kept.
ghost use Rattle.std.specs.Prelude.{◌≡◌};

use crate::seen::Seen;
use amqp_trace::Teller;
use std::io;
use std::io::{ErrorKind, Read, Write};

/// A device, and what is printed of it. It reads and writes as the device does.
#[derive(Drop)]
pub(crate) struct Traced<'a, T, E> {
    device: T,
    seen: &'a Seen,
    trace: Trace<'a, E>,
}

/// What goes over a device, as lines on standard error.
#[derive(Drop)]
struct Trace<'a, E> {
    rt: &'a E,
    /// `None` if nothing is printed.
    teller: Option<Teller>,
}

impl<'a, T, E: Eprint> Traced<'a, T, E> {
    pub(crate) fn new(
        device: T,
        rt: &'a E,
        seen: &'a Seen,
        teller: Option<Teller>,
    ) -> Traced<'a, T, E> {
        Traced {
            device,
            seen,
            trace: Trace { rt, teller },
        }
    }
}

impl<T: Read, E: Eprint> Read for Traced<'_, T, E> {
    ghost remaining = { λ s. T.remaining s.device };

    fn read(&mut self, buf: &mut [u8]) -> io::Result<usize> {
        if self.seen.is_in_vain() {
            return Err(io::Error::from(ErrorKind::WouldBlock));
        }
        match self.device.read(buf) {
            Ok(count) => {
                self.seen.note_read();
                self.trace.tell(&buf[..count]);
                Ok(count)
            }
            Err(error) => {
                self.seen.note(&error);
                Err(error)
            }
        }
    }
}

impl<T: Write, E: Eprint> Write for Traced<'_, T, E> {
    ghost contents = { λ s. T.contents s.device };

    fn write(&mut self, buf: &[u8]) -> io::Result<usize> {
        match self.device.write(buf) {
            Ok(count) => {
                self.trace.tell(&buf[..count]);
                Ok(count)
            }
            Err(error) => {
                self.seen.note(&error);
                Err(error)
            }
        }
    }

    fn flush(&mut self) -> io::Result<()> {
        self.device.flush()
    }
}

impl<E: Eprint> Trace<'_, E> {
    /// Prints each header and frame that ends in these octets.
    fn tell(&mut self, octets: &[u8]) {
        if let Some(teller) = &mut self.teller {
            teller.tell(self.rt, octets);
        }
    }
}
