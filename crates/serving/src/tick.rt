//! What wakes the workers.

use std::sync::{Condvar, Mutex, Wait};

#[derive(Clone, Copy)]
struct Beat {
    number: u64,
    closed: bool,
}

/// A number that each write to a link raises.
#[derive(Drop)]
pub struct Tick {
    beat: Mutex<Beat>,
    changed: Condvar,
}

impl Tick {
    /// An open tick with the number 0.
    pub fn new() -> Tick {
        Tick {
            beat: Mutex::new(Beat {
                number: 0,
                closed: false,
            }),
            changed: Condvar::new(),
        }
    }

    /// The number now.
    pub fn number<R: Wait>(&self, rt: &R) -> u64 {
        self.beat.lock(rt).number
    }

    /// Raises the number, and wakes whoever waits for another one.
    pub fn raise<R: Wait>(&self, rt: &R) {
        let mut beat = self.beat.lock(rt);
        beat.number = beat.number.wrapping_add(1);
        self.changed.notify_all();
    }

    /// Waits until the number is another than `seen`, or the tick is closed; false where it is closed.
    pub fn wait_past<R: Wait>(&self, rt: &R, seen: u64) -> bool {
        let beat = self.changed.wait_while(rt, self.beat.lock(rt), |beat| {
            beat.number == seen && !beat.closed
        });
        !beat.closed
    }

    /// Ends each wait for another number.
    pub fn close<R: Wait>(&self, rt: &R) {
        let mut beat = self.beat.lock(rt);
        beat.closed = true;
        self.changed.notify_all();
    }
}
