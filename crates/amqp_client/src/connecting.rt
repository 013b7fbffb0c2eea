//! How a client gets its connection, and closes it.
use crate::attaching::await_open;
use crate::client::Client;
use crate::ending::close;
use crate::error::ClientError;
use crate::fault::ClientFault;
use amqp_conn::{Config, StartFault, Text};
use amqp_policy::TICK;
use std::alloc::{AllocError, Global};
use std::io;
use std::io::{Read, Write};
use std::net::{Net, TcpStream};
use std::time::Duration;

/// The settings of a connection. [`Options::new`] has the usual ones; each field may be set to something else.
///
/// # Examples
///
/// ```text
/// let options = Options { patience: Some(30), ..Options::new("my_sender") };
/// ```
#[derive(Clone, Copy, Debug)]
pub struct Options<'a> {
    /// The name of this program at the peer (part 2, 2.7.1).
    pub container_id: &'a str,
    /// The name of the host that is wanted at the peer, if one is.
    pub hostname: Option<&'a str>,
    /// The longest frame that is taken, in octets: at least 512.
    pub max_frame: u32,
    /// After so many seconds of silence the peer is given up, and a write that makes no progress fails. The peer is asked for a heartbeat in half of that time. `None`: the
    /// peer is waited for without a limit.
    pub patience: Option<u32>,
}

impl<'a> Options<'a> {
    /// Returns the usual settings: no host name, frames of at most 65536 octets, 60 seconds of patience.
    pub fn new(container_id: &'a str) -> Options<'a> {
        Options {
            container_id,
            hostname: None,
            max_frame: 65536,
            patience: Some(60),
        }
    }

    fn config(&self, alloc: Global) -> Result<Config, AllocError> {
        let idle_time_out = match self.patience {
            Some(seconds) => Some(seconds.saturating_mul(500)),
            None => None,
        };
        let container_id = Text::new(alloc, self.container_id)?;
        let mut config = Config::new(container_id);
        config.max_frame = self.max_frame;
        config.idle_time_out = idle_time_out;
        match text_of(alloc, self.hostname) {
            Ok(hostname) => {
                config.hostname = hostname;
                Ok(config)
            }
            Err(error) => {
                drop(config);
                Err(error)
            }
        }
    }
}

fn text_of(alloc: Global, text: Option<&str>) -> Result<Option<Text>, AllocError> {
    match text {
        Some(text) => Ok(Some(Text::new(alloc, text)?)),
        None => Ok(None),
    }
}

/// A connection to this host, whose reads end after a [`TICK`], and a second handle on it.
fn streams<R: Net<Stream = TcpStream>>(
    rt: &R,
    there: (&str, u16),
    patience: Option<u32>,
) -> io::Result<(TcpStream, TcpStream)> {
    let stream = TcpStream::connect(rt, there)?;
    match reader_of(&stream, patience) {
        Ok(reader) => Ok((reader, stream)),
        Err(error) => {
            drop(stream);
            Err(error)
        }
    }
}

fn reader_of(stream: &TcpStream, patience: Option<u32>) -> io::Result<TcpStream> {
    stream.set_nodelay(true)?;
    stream.set_read_timeout(Some(Duration::from_millis(u64::from(TICK))))?;
    if let Some(seconds) = patience {
        stream.set_write_timeout(Some(Duration::from_secs(u64::from(seconds.max(1)))))?;
    }
    stream.try_clone()
}

impl Client<TcpStream, TcpStream> {
    /// Connects to a host over TCP, and waits until the peer has opened the connection.
    ///
    /// `there` is a host's name or address, and a port.
    ///
    /// # Errors
    ///
    /// [`ClientError::Connect`] if there is no such host, or it does not listen; [`ClientError::Start`] if a setting is out of its limits; [`ClientError::Sasl`] or
    /// [`ClientError::NoHeader`] if the peer requires a SASL layer; [`ClientError::Ended`] if the peer closes the connection at once.
    pub fn connect<R: Net<Stream = TcpStream>>(
        rt: &R,
        alloc: Global,
        there: (&str, u16),
        options: &Options<'_>,
    ) -> Result<Client<TcpStream, TcpStream>, ClientError> {
        match streams(rt, there, options.patience) {
            Ok((reader, writer)) => opened(Client::over(alloc, options, reader, writer)?),
            Err(error) => Err(ClientError::Connect(error)),
        }
    }
}

/// Waits until the peer has opened the connection.
fn opened(
    client: Client<TcpStream, TcpStream>,
) -> Result<Client<TcpStream, TcpStream>, ClientError> {
    let mut client = client;
    match await_open(&mut client) {
        Ok(()) => Ok(client),
        Err(fault) => {
            let error = client.error_on(u32::MAX, fault);
            drop(client);
            Err(error)
        }
    }
}

impl<R: Read + Drop, W: Write + Drop> Client<R, W> {
    /// Returns a client over a reader and a writer. Nothing was written or read yet.
    ///
    /// The reads should end with `WouldBlock` or `TimedOut` if nothing comes for a [`TICK`]: else no heartbeat is sent while a call waits, and no silent peer is given
    /// up.
    ///
    /// # Errors
    ///
    /// [`ClientError::Start`] if a setting is out of its limits; [`ClientError::NoMemory`].
    pub fn over(
        alloc: Global,
        options: &Options<'_>,
        reader: R,
        writer: W,
    ) -> Result<Client<R, W>, ClientError> {
        match options.config(alloc) {
            Ok(config) => over_of(Client::new(alloc, config, options.patience, reader, writer)),
            Err(_) => {
                drop(reader);
                drop(writer);
                Err(ClientError::NoMemory)
            }
        }
    }
}

fn over_of<R: Drop, W: Drop>(
    client: Result<Client<R, W>, ClientFault>,
) -> Result<Client<R, W>, ClientError> {
    match client {
        Ok(client) => Ok(client),
        Err(ClientFault::Start(StartFault::BadConfig)) => {
            Err(ClientError::Start(StartFault::BadConfig))
        }
        Err(_) => Err(ClientError::NoMemory),
    }
}

impl<R: Read, W: Write> Client<R, W> {
    /// Detaches all links, ends the session, closes the connection, and waits for the peer's close. What the peer sends meanwhile is dropped, also outcomes.
    ///
    /// # Errors
    ///
    /// [`ClientError::Ended`] if the peer closes the connection with an error, and those of the connection.
    pub fn close(&mut self) -> Result<(), ClientError> {
        match close(self) {
            Ok(()) => Ok(()),
            Err(fault) => Err(self.error_on(u32::MAX, fault)),
        }
    }
}
