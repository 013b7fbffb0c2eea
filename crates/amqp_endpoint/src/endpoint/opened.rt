//! How an endpoint begins: before its first step, and once the peer's open has come (part 2, 2.7.1).
ghost use Rattle.std.specs.Prelude.{◌≡◌, ◌<◌, ◌^◌};
ghost use Rattle.amqp_rules.specs.Limits.{IsWithinLimits};
ghost use Rattle.amqp_rules.specs.Opened.{next_opened};
ghost use Rattle.amqp_rules.specs.View.{initial};

use crate::config::Config;
use crate::endpoint::Endpoint;
use amqp_flow::windows::Windows;
use amqp_steps::cutting::Cutter;
use amqp_steps::plan::Session;
use amqp_steps::stores::Stores;
use std::alloc::Global;

/// The longest frame, in octets, that each peer takes.
const LEAST_MAX_FRAME: u32 = 512;

impl Endpoint {
    /// The endpoint before its first step: nothing was sent or heard. It takes no memory.
    pub fn new(alloc: Global, config: &Config) -> Endpoint
        requires { IsWithinLimits config.now }
        ensures { result ≡ initial config.now }
    {
        Endpoint {
            alloc,
            steps: 0,
            session: Session {
                begin_sent: false,
                begin_heard: false,
                end_sent: false,
                end_heard: false,
                windows: Windows::new(config.first_id, config.window),
                deliveries: 0,
                expected: None,
                max_frame: LEAST_MAX_FRAME,
                handle_max: u32::MAX,
            },
            stores: Stores::new(alloc),
            cutter: Cutter::new(alloc),
        }
    }

    /// The peer takes frames of so many octets; each peer takes 512.
    pub fn opened(&mut self, max: u32)
        requires { self.old.steps < 2 ^ 30 }
        ensures { self.new ≡ next_opened self.old max }
    {
        self.steps += 1;
        self.session.max_frame = max.max(LEAST_MAX_FRAME);
    }
}
