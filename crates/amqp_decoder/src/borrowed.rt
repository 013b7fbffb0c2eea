//! The parts of a performative that want memory, still in octets: what they are is known already, so that memory is asked for last.
ghost use Rattle.std.specs.Prelude.{◌≡◌, IsTrue, IfOk, ◌↔◌};
ghost use Rattle.amqp_decoder.specs.Borrowed.{is_whole};

use amqp_types::{Boxed, Class, Items, ReadFault, Value, class_of, read_value};
use std::alloc::{AllocError, Global};

/// A value.
#[derive(Clone, Copy)]
pub(crate) struct ValueRef<'a> {
    pub(crate) octets: &'a [u8],
    ghost whole: { IsTrue (is_whole octets.now) },
}

impl<'a> ValueRef<'a> {
    ghost use Rattle.amqp_types.specs.View.{view};
    ghost use Rattle.amqp_decoder.specs.Borrowed.{datum_in, is_mapping};

    /// Whether it is a map.
    pub(crate) fn is_map(self) -> bool
        ensures { result ≡ is_mapping (datum_in self.entry.octets.now) }
    {
        match self.octets.split_first() {
            Some((code, _)) => match class_of(*code) {
                Class::Map(_) => true,
                _ => false,
            },
            None => false,
        }
    }

    /// The value in memory of its own.
    pub(crate) fn owned(self, alloc: Global) -> Result<Value, AllocError>
        ensures { IfOk result (λ value. view value ≡ datum_in self.entry.octets.now) }
    {
        match read_value(alloc, self.octets) {
            Ok((value, _)) => Ok(value),
            Err(_) => Err(AllocError),
        }
    }

    /// The same, behind a pointer.
    pub(crate) fn boxed(self, alloc: Global) -> Result<Boxed<Value>, AllocError>
        ensures { IfOk result (λ value. view value ≡ datum_in self.entry.octets.now) }
    {
        let value = self.owned(alloc)?;
        Boxed::new(alloc, value)
    }
}

/// An error.
#[derive(Clone, Copy)]
pub(crate) struct ErrorRef<'a> {
    pub(crate) condition: &'a str,
    pub(crate) description: Option<&'a str>,
    pub(crate) info: Option<ValueRef<'a>>,
}

/// The state of a delivery.
#[derive(Clone, Copy)]
pub(crate) enum StateRef<'a> {
    Received {
        section_number: u32,
        section_offset: u64,
    },
    Accepted,
    Rejected(Option<ErrorRef<'a>>),
    Released,
    Modified {
        delivery_failed: Option<bool>,
        undeliverable_here: Option<bool>,
        message_annotations: Option<ValueRef<'a>>,
    },
    Other(ValueRef<'a>),
}
