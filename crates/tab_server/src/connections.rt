//! The connections of a server, which can all be ended at once.

use crate::ServerFault;
use std::alloc::Global;
use std::sync::atomic::{AtomicBool, Ordering};
use std::sync::{Mutex, Wait};
use tab_socket::{Closer, Listener};

// What closes the connection that a worker serves.
#[derive(Drop)]
struct WorkerConnection {
    stream: Mutex<Option<Closer>>,
}

/// The connections of a server: those that are served, each at the place of its worker, and those to come. All of them can be closed: then
/// nothing more is read or written there, and whoever waits for one goes on.
#[derive(Drop)]
pub(crate) struct Connections {
    listener: Closer,
    places: Vec<WorkerConnection>,
    are_closed: AtomicBool,
}

impl Connections {
    /// Those of this listener, with so many workers.
    pub(crate) fn new<N: Listener>(
        alloc: Global,
        listener: &N,
        workers: u32,
    ) -> Result<Connections, ServerFault> {
        let Ok(listener) = listener.closer() else {
            return Err(ServerFault::NoHandle);
        };
        let mut places = Vec::new(alloc);
        for _ in 0..workers {
            places.reserve(1)?;
            let stream = Mutex::new(None);
            places.push_reserved(WorkerConnection { stream });
        }
        Ok(Connections {
            listener,
            places,
            are_closed: AtomicBool::new(false),
        })
    }

    /// Whether they are closed.
    pub(crate) fn are_closed(&self) -> bool {
        self.are_closed.load(Ordering::SeqCst)
    }

    /// The worker of this number serves the stream that this closes from now on. Whether it may: they aren't closed.
    pub(crate) fn enter<R: Wait>(&self, rt: &R, worker: usize, stream: Closer) -> bool {
        self.put(rt, worker, Some(stream));
        // Whoever closes them sees the stream, or it is seen here that they are closed.
        !self.are_closed()
    }

    /// The worker of this number serves none.
    pub(crate) fn leave<R: Wait>(&self, rt: &R, worker: usize) {
        self.put(rt, worker, None);
    }

    fn put<R: Wait>(&self, rt: &R, worker: usize, stream: Option<Closer>) {
        if let Some(place) = self.places.get(worker) {
            *place.stream.lock(rt) = stream;
        }
    }

    /// Closes them all.
    pub(crate) fn close<R: Wait>(&self, rt: &R) {
        self.are_closed.store(true, Ordering::SeqCst);
        for place in &self.places {
            let stream = place.stream.lock(rt);
            if let Some(stream) = &*stream {
                stream.close();
            }
        }
        self.listener.close();
    }
}
