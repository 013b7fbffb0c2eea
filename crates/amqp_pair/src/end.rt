//! One end, as its threads share it.
use crate::fault::PairFault;
use crate::gate::Gate;
use crate::reading::{Beginning, Reader};
use crate::writing::{Batch, Outlet, WriteOutcome};
use amqp_shared::{Name, Pass, Shared, WriterEnd};
use std::alloc::Global;
use std::net::TcpStream;
use std::sync::{Arc, Wait};

/// What the threads of an end share: its connection, and by what they write what they have put out.
#[derive(Drop)]
pub struct End<N: Name> {
    pub shared: Shared<N>,
    pub outlet: Outlet<N>,
}

impl<N: Name> End<N> {
    /// Writes all that was put out. Who calls it has given the lock back.
    pub fn flush<R: Wait>(&self, rt: &R) {
        self.outlet.flush(rt, &self.shared);
    }

    /// Once its threads have ended.
    pub fn into_parts(self) -> (Shared<N>, WriteOutcome<N>) {
        let End { shared, outlet } = self;
        (shared, outlet.into_parts())
    }
}

/// What an end is made of beside its connection: all of it that can fail.
#[derive(Drop)]
pub struct Means {
    stream: TcpStream,
    /// The reader's.
    copy: TcpStream,
    batch: Batch,
    gate: Arc<Gate>,
    /// The reader's.
    told: Arc<Gate>,
}

impl Means {
    /// For an end over the socket.
    pub fn new(alloc: Global, stream: TcpStream) -> Result<Means, PairFault> {
        let copy = stream.try_clone().map_err(PairFault::Socket)?;
        let batch = Batch::new(alloc)?;
        let (gate, told) = Gate::pair(alloc)?;
        Ok(Means {
            stream,
            copy,
            batch,
            gate,
            told,
        })
    }

    /// The end, what its reader starts with, and what tells that the end is open.
    pub fn into_end<N: Name>(
        self,
        alloc: Global,
        shared: Shared<N>,
        pass: Pass<N>,
        writer: WriterEnd<N>,
        beginning: Beginning,
    ) -> (End<N>, Reader<N>, Arc<Gate>) {
        let Means {
            stream,
            copy,
            batch,
            gate,
            told,
        } = self;
        let reader = Reader {
            alloc,
            pass,
            stream: copy,
            beginning,
            gate: told,
        };
        let outlet = Outlet::new(writer, stream, batch);
        (End { shared, outlet }, reader, gate)
    }
}
