//! Many connections on one thread (`amqp_ready`), over a stream that gives octets and takes them in small parts, and would wait now and then. They show what no
//! clause says: octets of a known connection, and that what waits goes on. `driver` has one over sockets of the loopback.

mod driver;
mod fake;
mod peer;
mod slot;
mod slots;
