//! A connection as each end begins it.
ghost use Rattle.std.specs.Prelude.{◌≡◌, IfOk};

use crate::fault::PairFault;
use crate::options::{MAX_FRAME, Options};
use crate::reading::WINDOW;
use crate::writing::RING;
use amqp_conn::Config;
use amqp_shared::{Retention, Seed};
use amqp_types::Text;
use std::alloc::Global;

/// A connection that is not shared yet, with the settings of both ends and this name.
pub fn seed(alloc: Global, name: &str, options: &Options) -> Result<Seed, PairFault>
    ensures { IfOk result (λ s. s.parts ≡ 65536) }
{
    let Ok(container_id) = Text::new(alloc, name) else {
        return Err(PairFault::NoMemory);
    };
    let config = Config {
        container_id,
        hostname: None,
        max_frame: MAX_FRAME,
        idle_time_out: None,
        first_id: options.first_id,
        window: WINDOW,
        journal_limit: 1073741824,
    };
    match Seed::new(alloc, config, RING, retention_for(options.keep)) {
        Ok(seed) => Ok(seed),
        Err(fault) => Err(PairFault::Start(fault)),
    }
}

/// An end that keeps a number of entries forgets all of them when it has more.
fn retention_for(keep: Option<u32>) -> Retention {
    match keep {
        Some(_) => Retention::UntilForgotten,
        None => Retention::All,
    }
}
