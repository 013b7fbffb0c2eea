//! What the threads of a server share: the messages, and the peers that are dealt to each thread.
use crate::store::Store;
use amqp_trace::Look;
use mio::net::{TcpListener, TcpStream};
use mio::{Poll, Waker};
use std::alloc::{AllocError, Global};
use std::collections::VecDeque;
use std::io;
use std::net::SocketAddr;
use std::sync::{Mutex, Wait};

/// What each thread is to do.
#[derive(Clone, Copy)]
pub struct Settings {
    pub alloc: Global,
    /// How much credit each link is granted.
    pub credit: u32,
    /// The server ends once so many messages went out and are done with; `None` if it goes on.
    pub count: Option<u32>,
    /// How each frame is printed; `None` if it is not.
    pub trace: Option<Look>,
}

/// What a thread begins with.
#[derive(Drop)]
pub struct Job {
    /// Its place among the threads.
    pub place: usize,
    /// What its driver waits by.
    pub poll: Poll,
}

/// A peer that has connected, and is with no thread yet.
#[derive(Drop)]
pub struct Newcomer {
    /// Which one it is of all, from 1 on.
    pub number: u64,
    pub from: SocketAddr,
    pub stream: TcpStream,
}

/// What waits for one thread.
#[derive(Drop)]
struct Assigned {
    newcomers: VecDeque<Newcomer>,
    /// `None` if the thread does not run.
    waker: Option<Waker>,
}

impl Assigned {
    fn wake(&self) {
        if let Some(waker) = &self.waker {
            // A turn waits a quarter of a second at most, and then looks.
            let _ = waker.wake();
        }
    }

    /// Takes a peer more. Its stream is closed if the thread has ended meanwhile, or memory runs out.
    fn take(&mut self, newcomer: Newcomer) {
        if self.waker.is_none() {
            drop(newcomer);
            return;
        }
        let _ = self.newcomers.push_back(newcomer);
        self.wake();
    }
}

/// What the threads of a server share. Each thread has a place, from 0 on.
#[derive(Drop)]
pub struct Shared {
    pub settings: Settings,
    /// Where peers connect, until a thread has it.
    listener: Mutex<Option<TcpListener>>,
    pub store: Mutex<Store>,
    threads: Vec<Mutex<Assigned>>,
    /// Whoever holds it prints: lines of one thread stay together.
    pub output: Mutex<()>,
}

impl Shared {
    /// Returns what so many threads share, none of which runs yet. The queues together take at most `limit` messages.
    ///
    /// # Errors
    ///
    /// `AllocError` if memory runs out.
    pub fn new(
        settings: Settings,
        limit: usize,
        count: u32,
        listener: TcpListener,
    ) -> Result<Shared, AllocError> {
        let alloc = settings.alloc;
        let mut threads = Vec::new(alloc);
        if let Err(error) = add_threads(alloc, &mut threads, count) {
            drop(threads);
            drop(listener);
            return Err(error);
        }
        Ok(Shared {
            settings,
            listener: Mutex::new(Some(listener)),
            store: Mutex::new(Store::new(alloc, limit)),
            threads,
            output: Mutex::new(()),
        })
    }

    /// Returns how many threads there are.
    pub fn len(&self) -> usize {
        self.threads.len()
    }

    /// Notes that the thread at this place runs, and is woken by `waker`. The first thread is given the listener.
    pub fn enter<R: Wait>(&self, rt: &R, place: usize, waker: Waker) -> Option<TcpListener> {
        match self.threads.get(place) {
            Some(thread) => thread.lock(rt).waker = Some(waker),
            None => drop(waker),
        }
        self.listener.lock(rt).take()
    }

    /// Notes that the thread at this place ends, by a fault or because the server does. Peers that wait for it find their streams closed, and the
    /// other threads are woken.
    pub fn leave<R: Wait>(&self, rt: &R, place: usize, fault: Option<io::Error>) {
        if fault.is_some() {
            self.store.lock(rt).failed = fault;
        }
        if let Some(thread) = self.threads.get(place) {
            let mut thread = thread.lock(rt);
            thread.waker = None;
            thread.newcomers.clear();
        }
        self.wake_others(rt, place);
    }

    /// Returns whether as many messages went out as are asked for, or a thread has failed.
    pub fn is_over<R: Wait>(&self, rt: &R) -> bool {
        let store = self.store.lock(rt);
        if store.failed.is_some() {
            return true;
        }
        match self.settings.count {
            Some(count) => store.totals.went >= u64::from(count),
            None => false,
        }
    }

    /// Wakes the threads at other places.
    pub fn wake_others<R: Wait>(&self, rt: &R, place: usize) {
        for (other, thread) in self.threads.iter().enumerate() {
            if other != place {
                thread.lock(rt).wake();
            }
        }
    }

    /// Gives a peer to one of the threads that run, each in its turn. The peer's stream is closed if none runs, or memory runs out.
    pub fn deal<R: Wait>(&self, rt: &R, newcomer: Newcomer) {
        match self.thread_for(rt, newcomer.number) {
            Some(thread) => thread.lock(rt).take(newcomer),
            None => drop(newcomer),
        }
    }

    /// Returns the thread whose turn it is, of those that run.
    fn thread_for<R: Wait>(&self, rt: &R, number: u64) -> Option<&Mutex<Assigned>> {
        let count = self.threads.len();
        for step in 0..count {
            let thread = self
                .threads
                .get((number as usize).wrapping_add(step) % count)?;
            if runs(rt, thread) {
                return Some(thread);
            }
        }
        None
    }

    /// Returns the next peer that was given to the thread at this place.
    pub fn next_newcomer<R: Wait>(&self, rt: &R, place: usize) -> Option<Newcomer> {
        self.threads.get(place)?.lock(rt).newcomers.pop_front()
    }
}

fn runs<R: Wait>(rt: &R, thread: &Mutex<Assigned>) -> bool {
    thread.lock(rt).waker.is_some()
}

fn add_threads(
    alloc: Global,
    threads: &mut Vec<Mutex<Assigned>>,
    count: u32,
) -> Result<(), AllocError> {
    for _ in 0..count {
        threads.push(Mutex::new(Assigned {
            newcomers: VecDeque::new(alloc),
            waker: None,
        }))?;
    }
    Ok(())
}
