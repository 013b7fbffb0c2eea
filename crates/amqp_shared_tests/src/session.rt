//! A shared session, as it begins and as it is taken apart.
ghost use Rattle.std.specs.Prelude.{◌≡◌, IfSome};

use amqp_conn::Config;
use amqp_shared::{Closed, Name, Pass, Retention, Seed, Shared, WriterEnd};
use amqp_types::Text;
use std::alloc::Global;

/// A seed with a ring of so many units, whose journal takes so many steps and keeps these; none if memory runs out.
pub(crate) fn seed_of(
    alloc: Global,
    ring: usize,
    journal_limit: u32,
    retention: Retention,
) -> Option<Seed>
    ensures { IfSome result (λ s. s.parts ≡ 65536) }
{
    if ring == 0 {
        return None;
    }
    if ring > 65536 {
        return None;
    }
    let Ok(container_id) = Text::new(alloc, "a") else {
        return None;
    };
    let config = Config {
        container_id,
        hostname: None,
        max_frame: 65536,
        idle_time_out: None,
        first_id: 0,
        window: 2048,
        journal_limit,
    };
    Seed::new(alloc, config, ring, retention).ok()
}

/// What it is taken apart to; none where it is handed back.
pub(crate) fn closed_by<N: Name>(
    shared: Shared<N>,
    passes: Vec<Pass<N>>,
    writer: WriterEnd<N>,
) -> Option<Closed> {
    match shared.close(passes, writer) {
        Ok(closed) => Some(closed),
        Err(kept) => {
            drop(kept);
            None
        }
    }
}
