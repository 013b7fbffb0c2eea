//! Connections over sockets of the loopback, both ends on one thread.
use crate::ready::peer::connection;
use amqp_conn::{Conn, Given, Op, Phase, Refusal};
use amqp_ready::{Admitted, Driver, Handler, Lent, Next, Recorded, SlotFault, Stage, Way, Welcome};
use mio::net::{TcpListener, TcpStream};
use std::alloc::Global;
use std::io;
use std::net::{IpAddr, Ipv4Addr, Net, SocketAddr};
use std::time::Duration;

/// Closes its connection as soon as it is open.
#[derive(Drop)]
struct Closes;

impl Handler for Closes {
    ghost use Rattle.std.specs.Prelude.{None};

    ghost told = { λ c. None };

    fn take(&mut self, _conn: &mut Lent, given: Given) -> Result<Next, Refusal> {
        drop(given);
        Ok(Next::Feed)
    }

    fn go_on(&mut self, conn: &mut Lent) -> Result<bool, Refusal> {
        if conn.conn().phase() == Phase::Running {
            let _ = conn.close(None);
        }
        Ok(false)
    }
}

/// A listener at the loopback, and its address.
fn listener<R: Net>(rt: &R) -> io::Result<(TcpListener, SocketAddr)> {
    let here = SocketAddr::new(IpAddr::V4(Ipv4Addr::new(127, 0, 0, 1)), 0);
    let listener = TcpListener::bind(rt, here)?;
    let there = listener.local_addr()?;
    Ok((listener, there))
}

/// Two ends of a socket of the loopback.
fn ends<R: Net>(rt: &R) -> io::Result<(TcpStream, TcpStream)> {
    let (listener, there) = listener(rt)?;
    let near = TcpStream::connect(rt, there)?;
    let (far, _) = accept(&listener)?;
    Ok((near, far))
}

/// The connection that was begun. It is there at once, or soon.
fn accept(listener: &TcpListener) -> io::Result<(TcpStream, SocketAddr)> {
    for _ in 0..u32::MAX {
        match listener.accept() {
            Err(error) if error.kind() == io::ErrorKind::WouldBlock => {}
            answer => return answer,
        }
    }
    listener.accept()
}

/// A connection more over this stream.
fn add(alloc: Global, driver: &mut Driver<Closes>, stream: TcpStream) -> bool {
    match connection(alloc) {
        Some(conn) => driver.add(stream, conn, Closes).is_ok(),
        None => {
            drop(stream);
            false
        }
    }
}

/// A turn, which waits for so long at most as no test should.
fn turn(driver: &mut Driver<Closes>) -> bool {
    driver.turn(Some(Duration::from_secs(9))).is_ok()
}

/// Why a slot has ended that is taken out.
fn fault_of(driver: &mut Driver<Closes>) -> Option<Option<SlotFault>> {
    match driver.take_ended() {
        Some(ended) => {
            let fault = ended.fault;
            drop(ended);
            Some(fault)
        }
        None => None,
    }
}

/// Turns until a slot has ended: why.
fn turn_to_an_end(driver: &mut Driver<Closes>) -> Option<Option<SlotFault>> {
    for _ in 0..1000 {
        if !turn(driver) {
            break;
        }
        let fault = fault_of(driver);
        if fault.is_some() {
            return fault;
        }
    }
    None
}

/// Both ends of a socket are slots of one driver, and end.
fn both_close<R: Net>(rt: &R, alloc: Global, driver: &mut Driver<Closes>) -> bool {
    let Ok((near, far)) = ends(rt) else {
        return false;
    };
    let is_near = add(alloc, driver, near);
    let is_far = add(alloc, driver, far);
    is_near
        && is_far
        && turn_to_an_end(driver) == Some(None)
        && turn_to_an_end(driver) == Some(None)
        && driver.slots().is_empty()
}

/// The near end of a socket is a slot, and its far end is gone.
fn adds_one<R: Net>(rt: &R, alloc: Global, driver: &mut Driver<Closes>) -> bool {
    let Ok((near, far)) = ends(rt) else {
        return false;
    };
    let is_near = add(alloc, driver, near);
    drop(far);
    is_near
}

/// Of two peers one goes: its slot ends, and the other does not.
fn one_goes<R: Net>(rt: &R, alloc: Global, driver: &mut Driver<Closes>) -> bool {
    let is_one = adds_one(rt, alloc, driver);
    let Ok((other, silent)) = ends(rt) else {
        return false;
    };
    let is_other = add(alloc, driver, other);
    let ended = turn_to_an_end(driver);
    drop(silent);
    let fell = matches!(
        ended,
        Some(Some(SlotFault::EndOfInput | SlotFault::Read | SlotFault::Write))
    );
    is_one && is_other && fell && driver.slots().len() == 1
}

/// Lets so many peers in.
#[derive(Drop)]
struct Lets {
    alloc: Global,
    left: u32,
}

impl Welcome<Closes> for Lets {
    fn welcome(&mut self, _from: SocketAddr) -> Option<(Conn, Closes)> {
        if self.left == 0 {
            return None;
        }
        self.left -= 1;
        match connection(self.alloc) {
            Some(conn) => Some((conn, Closes)),
            None => None,
        }
    }
}

/// A near end more, of a socket to this address.
fn connects<R: Net>(rt: &R, alloc: Global, driver: &mut Driver<Closes>, there: SocketAddr) -> bool {
    match TcpStream::connect(rt, there) {
        Ok(stream) => add(alloc, driver, stream),
        Err(_) => false,
    }
}

/// Two peers at a listener of the driver's, whose near ends are its own too.
fn listens<R: Net>(rt: &R, alloc: Global, driver: &mut Driver<Closes>) -> bool {
    let Ok((listener, there)) = listener(rt) else {
        return false;
    };
    driver.listen(listener).is_ok()
        && connects(rt, alloc, driver, there)
        && connects(rt, alloc, driver, there)
}

/// Turns, and lets peers in, until no slot is left: how many were let in, how many were turned away, and how many slots ended without a fault.
fn turn_to_all_ends(driver: &mut Driver<Closes>, lets: &mut Lets) -> [usize; 3] {
    let mut counts = [0usize; 3];
    for _ in 0..1000 {
        if driver.slots().is_empty() || !turn(driver) {
            break;
        }
        let Ok(Admitted { added, turned_away }) = driver.admit(lets) else {
            break;
        };
        let [all_added, all_turned_away, well] = counts;
        counts = [
            all_added.saturating_add(added),
            all_turned_away.saturating_add(turned_away),
            well.saturating_add(usize::from(fault_of(driver) == Some(None))),
        ];
    }
    counts
}

/// Of two peers one is let in.
fn one_is_let_in<R: Net>(rt: &R, alloc: Global, driver: &mut Driver<Closes>) -> bool {
    let mut lets = Lets { alloc, left: 1 };
    listens(rt, alloc, driver)
        && turn_to_all_ends(driver, &mut lets) == [1, 1, 2]
        && driver.slots().is_empty()
}

/// A turn that would wait is woken; and an operation of the program's own is done, or told that no connection is there.
fn is_woken(driver: &mut Driver<Closes>) -> bool {
    let Ok(waker) = driver.waker() else {
        return false;
    };
    let is_awake = waker.wake().is_ok()
        && matches!(driver.turn(None), Ok(round) if round.turns == 0);
    drop(waker);
    is_awake && driver.perform(7, Op::Beat).is_none()
}

/// A connection that is not open yet refuses an operation.
fn is_refused<R: Net>(rt: &R, alloc: Global, driver: &mut Driver<Closes>) -> bool {
    let key = driver.slots().next_key();
    adds_one(rt, alloc, driver) && driver.perform(key, Op::Beat) == Some(Err(Refusal::NotRunning))
}

/// What was recorded of a stream, each way: how many octets, and a number that their order makes.
#[derive(Clone, Copy, PartialEq, Eq)]
struct Heard {
    read: (usize, u64),
    written: (usize, u64),
}

const NOTHING: (usize, u64) = (0, 0);

/// These octets more.
fn summed(sum: (usize, u64), octets: &[u8]) -> (usize, u64) {
    let (count, mut number) = sum;
    for octet in octets {
        number = number.wrapping_mul(31).wrapping_add(u64::from(*octet));
    }
    (count.wrapping_add(octets.len()), number)
}

/// All that was recorded of the stream under the key; none where that was cut.
fn heard_of(driver: &mut Driver<Closes>, key: usize) -> Option<Heard> {
    let mut heard = Heard {
        read: NOTHING,
        written: NOTHING,
    };
    for _ in 0..1000 {
        match driver.take_recorded(key) {
            Some(Recorded::Octets(Way::In, octets)) => {
                heard.read = summed(heard.read, octets.as_slice());
            }
            Some(Recorded::Octets(Way::Out, octets)) => {
                heard.written = summed(heard.written, octets.as_slice());
            }
            Some(Recorded::Cut) => return None,
            None => break,
        }
    }
    Some(heard)
}

/// Turns until both slots have ended, which are not taken out.
fn turn_to_both_ends(driver: &mut Driver<Closes>, near: usize, far: usize) -> bool {
    for _ in 0..1000 {
        let over = Some(Stage::Over(None));
        if driver.slots().stage(near) == over && driver.slots().stage(far) == over {
            return true;
        }
        if !turn(driver) {
            return false;
        }
    }
    false
}

/// Something went each way, and each end has read what the other one wrote. Nothing more is there.
fn are_alike(driver: &mut Driver<Closes>, near: usize, far: usize) -> bool {
    let (Some(one), Some(other)) = (heard_of(driver, near), heard_of(driver, far)) else {
        return false;
    };
    let is_something = one.read != NOTHING && other.read != NOTHING;
    let are_alike = one.read == other.written && other.read == one.written;
    is_something
        && are_alike
        && heard_of(driver, near).is_some_and(|it: Heard| -> bool { it.written == NOTHING })
}

/// Of both ends of a socket each has heard what the other one sent.
fn is_recorded<R: Net>(rt: &R, alloc: Global, driver: &mut Driver<Closes>) -> bool {
    let Ok((near, far)) = ends(rt) else {
        return false;
    };
    driver.record(alloc);
    let near_key = driver.slots().next_key();
    let is_near = add(alloc, driver, near);
    let far_key = driver.slots().next_key();
    let is_far = add(alloc, driver, far);
    is_near
        && is_far
        && turn_to_both_ends(driver, near_key, far_key)
        && are_alike(driver, near_key, far_key)
}

/// What a driver does.
#[derive(Clone, Copy)]
enum Case {
    BothClose,
    Recorded,
    OneGoes,
    OneIsLetIn,
    Woken,
    Refused,
}

const CASES: &[Case] = &[
    Case::BothClose,
    Case::Recorded,
    Case::OneGoes,
    Case::OneIsLetIn,
    Case::Woken,
    Case::Refused,
];

/// The case, over a driver of its own, which no way out but the last lets go.
fn holds<R: AllocGlobal + Net>(rt: &R, case: Case) -> bool {
    let alloc = rt.alloc();
    let Ok(mut driver) = Driver::new(rt, alloc, 8) else {
        return false;
    };
    let answer = match case {
        Case::BothClose => both_close(rt, alloc, &mut driver),
        Case::Recorded => is_recorded(rt, alloc, &mut driver),
        Case::OneGoes => one_goes(rt, alloc, &mut driver),
        Case::OneIsLetIn => one_is_let_in(rt, alloc, &mut driver),
        Case::Woken => is_woken(&mut driver),
        Case::Refused => is_refused(rt, alloc, &mut driver),
    };
    drop(driver);
    answer
}

#[test]
fn drivers_hold_over_sockets(rt: HostRuntime) {
    for case in CASES {
        assert!(rt; holds(&rt, *case));
    }
}
