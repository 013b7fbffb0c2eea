//! Runs of two ends over the loopback: options out of their range, and that all threads end where a socket is shut in mid-run.

use amqp_pair::{Options, PairFault, Totals, connected, run_over, run_pair};
use std::alloc::Global;
use std::net::{Net, Shutdown, TcpStream};
use std::sync::Wait;
use std::thread;
use std::thread::Threads;

/// One message of no octets, to one consumer.
const ONE: Options = Options {
    count: 1,
    consumers: 1,
    credit: 1,
    size: 0,
    first_id: 0,
    keep: None,
    settled: false,
};

/// Each with one option out of its range.
const OUT_OF_RANGE: [Options; 7] = [
    Options { count: 0, ..ONE },
    Options {
        count: 100001,
        ..ONE
    },
    Options {
        consumers: 0,
        ..ONE
    },
    Options {
        consumers: 17,
        ..ONE
    },
    Options { credit: 0, ..ONE },
    Options {
        credit: 1001,
        ..ONE
    },
    Options {
        size: 1000001,
        ..ONE
    },
];

fn is_refused(run: Result<(), PairFault>) -> bool {
    let refused = matches!(&run, Err(PairFault::Options));
    drop(run);
    refused
}

#[test]
fn options_out_of_range(rt: HostRuntime) {
    for options in OUT_OF_RANGE {
        let mut out: Vec<u8> = Vec::new(rt.alloc());
        let refused = is_refused(run_pair(&rt, rt.alloc(), &options, &mut out));
        let told = out.len();
        drop(out);
        assert!(rt; refused && told == 0);
    }
}

/// A run that takes seconds.
const LONG: Options = Options {
    count: 100000,
    consumers: 4,
    credit: 16,
    size: 70000,
    first_id: 0,
    keep: None,
    settled: false,
};

/// Whether the sender's socket is shut, and after how many turns of other threads.
const PLACES: [(bool, u32); 7] = [
    (true, 0),
    (false, 0),
    (true, 30),
    (false, 300),
    (true, 1000),
    (false, 3000),
    (true, 10000),
];

/// Shuts the socket for both directions after so many turns of other threads.
fn shut_after(stream: &TcpStream, turns: u32) {
    for _ in 0..turns {
        thread::yield_now();
    }
    // A run that has failed before has shut it.
    let _ = stream.shutdown(Shutdown::Both);
}

fn has_failed(run: Result<Totals, PairFault>) -> bool {
    let failed = matches!(&run, Err(PairFault::Read(_) | PairFault::Write(_)));
    drop(run);
    failed
}

/// Whether a run fails over this socket, which is shut meanwhile by a copy of one of its ends.
fn fails<R: Threads + Wait + Sync>(
    rt: &R,
    alloc: Global,
    stream: TcpStream,
    peer: TcpStream,
    copy: TcpStream,
    turns: u32,
) -> bool {
    let (run, ()) = thread::join(
        rt,
        || run_over(rt, alloc, &LONG, stream, peer),
        || shut_after(&copy, turns),
    );
    has_failed(run)
}

fn is_cut<R>(rt: &R, alloc: Global, is_sender: bool, turns: u32) -> bool
where
    R: Net<Stream = TcpStream> + Threads + Wait + Sync,
{
    let Some((stream, peer)) = connected(rt).ok() else {
        return false;
    };
    let copy = if is_sender {
        stream.try_clone()
    } else {
        peer.try_clone()
    };
    match copy {
        Ok(copy) => fails(rt, alloc, stream, peer, copy, turns),
        Err(_) => false,
    }
}

/// A run that takes seconds, one of whose sockets is shut meanwhile, ends with a fault.
#[test]
fn socket_shut_in_mid_run(rt: HostRuntime) {
    for (is_sender, turns) in PLACES {
        assert!(rt; is_cut(&rt, rt.alloc(), is_sender, turns));
    }
}
