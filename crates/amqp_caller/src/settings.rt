//! The settings with which a connection starts.
ghost use Rattle.std.specs.Prelude.{◌≡◌, ◌≢◌, ◌⊎◌, [], MatchResult};
ghost use Rattle.amqp_conn.specs.Connection.{connection};
ghost use Rattle.amqp_conn.specs.Octets.{new_core};
ghost use Rattle.amqp_caller.specs.Starting.{config_told, counted, or_else};

use crate::arguments::{named, text_of};
use crate::status::NOT_STARTED;
use amqp_conn::{Config, Conn};
use std::alloc::Global;

/// The settings of a connection. 0 in a field stands for its default.
#[repr(C)]
#[derive(Clone, Copy, Drop)]
pub struct Settings {
    /// The longest frame that we take, in octets; by default 65536.
    pub max_frame: u32,
    /// How many transfers are taken at a time; by default 2048.
    pub window: u32,
    /// How many steps the connection may make; by default 2^30.
    pub journal_limit: u32,
    /// The id of the first transfer and of the first delivery.
    pub first_id: u32,
    /// The idle time-out that our open announces, in milliseconds; by default none.
    pub idle_time_out: u32,
}

fn or_else(number: u32, other: u32) -> u32
    ensures { result ≡ or_else number other }
{
    if number == 0 {
        return other;
    }
    number
}

fn counted(number: u32) -> Option<u32>
    ensures { result ≡ counted number }
{
    if number == 0 {
        return None;
    }
    Some(number)
}

/// Returns the configuration that these arguments describe.
fn config_of(alloc: Global, name: &[u8], host: &[u8], settings: &Settings) -> Result<Config, u32>
    ensures { MatchResult result (λ c. c ≡ config_told name.now host.now settings.now) (λ s. s ≢ 0) }
{
    let container_id = text_of(alloc, name)?;
    let hostname = named(alloc, host)?;
    Ok(Config {
        container_id,
        hostname,
        max_frame: or_else(settings.max_frame, 65536),
        idle_time_out: counted(settings.idle_time_out),
        first_id: settings.first_id,
        window: or_else(settings.window, 2048),
        journal_limit: or_else(settings.journal_limit, 1 << 30),
    })
}

/// Starts a connection of a container with this name to this host; to no host in particular if `host` is empty.
///
/// # Errors
///
/// [`BAD_ARGUMENT`](crate::BAD_ARGUMENT), [`NO_MEMORY`](crate::NO_MEMORY), or [`NOT_STARTED`] and the number of the reason.
pub fn start(alloc: Global, name: &[u8], host: &[u8], settings: &Settings) -> Result<Conn, u32>
    ensures { MatchResult result (λ conn. conn ≡ connection (new_core (config_told name.now host.now settings.now)) []) (λ s. s ≢ 0) }
{
    match Conn::new(alloc, config_of(alloc, name, host, settings)?) {
        Ok(conn) => Ok(conn),
        Err(fault) => Err(NOT_STARTED + fault.number()),
    }
}
