//! The peer's header (part 2, 2.2): eight octets, in pieces of any length.
ghost use Rattle.std.specs.Prelude.{◌≡◌, ◌≢◌, ◌≤◌, ◌+◌, ◌++◌, length, vec_len, vec_capacity, MatchBool};
ghost use Rattle.amqp_conn.specs.Octets.{header};
ghost use Rattle.amqp_conn.specs.Treats.{ReadsHeader};

use crate::fault::ConnFault;
use crate::fed::Fed;
use crate::treating::{Machine, nothing};
use crate::writing::HEADER;
use amqp_types::Boxed;

/// Requires room for the octets, so that it cannot run out of memory.
pub(crate) fn fill(head: &mut Vec<u8>, octets: &[u8])
    requires { vec_len head.old + length octets.now ≤ vec_capacity head.old }
    ensures items { head.new.items ≡ head.old.items ++ octets.now }
    ensures room { vec_capacity head.old ≤ vec_capacity head.new }
{
    head.extend_from_slice(octets).unwrap();
}

fn is_header(octets: &[u8]) -> bool
    ensures { MatchBool result (octets.now ≡ header) (octets.now ≢ header) }
{
    octets == HEADER.as_slice()
}

/// If memory runs out, the `used` octets that came last, after `count` others, are removed again, to be fed again.
pub(crate) fn read_header(
    machine: &mut Boxed<Machine>,
    head: &mut Vec<u8>,
    count: usize,
    used: usize,
) -> Result<Fed, ConnFault>
    ensures reads { ReadsHeader machine.old head.old.items count used result machine.new head.new.items }
    ensures room { vec_capacity head.old ≤ vec_capacity head.new }
{
    if !is_header(head.as_slice()) {
        machine.boxed.lose();
        return Err(ConnFault::BadHeader);
    }
    match machine.boxed.greet() {
        Ok(()) => Ok(nothing(used)),
        Err(_) => {
            head.truncate(count);
            Err(ConnFault::NoMemory)
        }
    }
}
