//! The type that distinguishes one shared connection from another.
use amqp_journal::unit::Unit;
use rtrb::Protocol;
use std::marker::Brand;
use std::sync::ledger::Ledger;

/// The name of one shared connection: which passes and which writer's end belong to it, and which entries of its journal
/// it keeps.
///
/// A type of this trait has no values. [`std::marker::Brand`] implements it.
pub trait Name: Ledger {
    ghost use Rattle.std.specs.Prelude.{Option};
    ghost use Rattle.amqp_shared.specs.Ring.{Ring};
    ghost use Rattle.amqp_shared.specs.declared.retention.Retention.{Retention};

    ghost ring: { Option Ring };

    ghost retention: { Retention };
}

impl Name for Brand {
    ghost use Rattle.std.specs.Prelude.{None};
    ghost use Rattle.amqp_shared.specs.declared.retention.Retention.TheVariants.{All};

    ghost ring = { None };

    ghost retention = { All };
}

/// The protocol of a writer's ring: the units that are pushed are numbered from 0.
#[derive(Clone, Copy)]
pub struct Numbered;

impl Protocol<Unit> for Numbered {
    ghost use Rattle.std.specs.Prelude.{◌≡◌, ◌<◌, ◌^◌, ◌-◌, length};

    ghost allows = { λ before unit. (unit.number ≡ length before) × (unit.number < 2 ^ 64 - 1) };
}
