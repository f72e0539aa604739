//! The links that wait for a job.

ghost use Rattle.std.specs.Prelude.{◌≡◌, ◌<◌, ◌≤◌, ◌++◌, ◌∷◌, []};
ghost use Rattle.std.specs.VecDeque.{deque_len, deque_capacity};

use std::alloc::Global;
use std::collections::VecDeque;
use std::sync::{Condvar, Mutex, Wait};
use trust_types::NoMemory;

/// The links that wait, with room for 64 of them.
#[derive(Drop)]
struct Waiting<T: Drop> {
    links: VecDeque<T>,
    closed: bool,
    ghost room: { 64 ≤ deque_capacity links },
}

impl<T: Drop> Waiting<T> {
    fn reserve(alloc: Global) -> Result<Waiting<T>, NoMemory> {
        Ok(Waiting {
            links: VecDeque::with_capacity(alloc, 64)?,
            closed: false,
        })
    }

    fn put(&mut self, link: T)
        requires { deque_len self.old.links < 64 }
        ensures { self.new.links.items ≡ self.old.links.items ++ link ∷ [] }
    {
        self.links.push_back_reserved(link);
    }
}

/// A queue of at most 64 links. Its room is reserved when it is made.
#[derive(Drop)]
pub struct Queue<T: Drop> {
    waiting: Mutex<Waiting<T>>,
    changed: Condvar,
}

impl<T: Drop> Queue<T> {
    /// An open queue without links.
    ///
    /// # Errors
    /// [`NoMemory`] where there is no room.
    pub fn reserve(alloc: Global) -> Result<Queue<T>, NoMemory> {
        Ok(Queue {
            waiting: Mutex::new(Waiting::reserve(alloc)?),
            changed: Condvar::new(),
        })
    }

    /// Puts a link behind those that wait. It waits while the queue is full, and takes no memory.
    pub fn push<R: Wait>(&self, rt: &R, link: T) {
        let mut waiting = self.changed.wait_while(
            rt,
            self.waiting.lock(rt),
            |waiting| waiting.links.len() >= 64,
        );
        waiting.put(link);
        self.changed.notify_all();
    }

    /// The first link. It waits while the queue is empty and open; `None` comes once it is empty and closed.
    pub fn pop<R: Wait>(&self, rt: &R) -> Option<T> {
        let mut waiting = self
            .changed
            .wait_while(rt, self.waiting.lock(rt), |waiting| {
                waiting.links.is_empty() && !waiting.closed
            });
        let link = waiting.links.pop_front();
        self.changed.notify_all();
        link
    }

    /// Ends each wait for a link, once none is left.
    pub fn close<R: Wait>(&self, rt: &R) {
        let mut waiting = self.waiting.lock(rt);
        waiting.closed = true;
        self.changed.notify_all();
    }
}
