ghost use Rattle.std.specs.Prelude.{◌≡◌};

use outside::Failed;
use outside_serving::{Count, Spawner};
use std::alloc::Global;
use std::marker::Model;
use std::thread::{JoinHandle, Threads};

/// Threads of the system. Contracts see a `Crew`.
#[derive(Drop)]
pub struct ThreadSpawner {
    running: Vec<JoinHandle<()>>,
    faults: Count,
}

impl Model for ThreadSpawner {
    ghost use Rattle.std.specs.Prelude.{◌-◌, vec_len, vec_capacity};
    ghost use Rattle.outside_serving.specs.Spawners.{Crew};

    ghost Value = { Crew };

    ghost view = { λ s. record {
      running = vec_len s.running;
      room = vec_capacity s.running - vec_len s.running;
      faults = s.faults;
    } };
}

impl ThreadSpawner {
    /// A spawner that started no thread yet.
    pub fn new(alloc: Global) -> ThreadSpawner
        ensures running { result.running ≡ 0 }
        ensures faults { result.faults ≡ 0 }
    {
        ThreadSpawner {
            running: Vec::new(alloc),
            faults: Count::zero(),
        }
    }
}

impl Spawner for ThreadSpawner {
    ghost faults = { λ s. s.faults };

    ghost running = { λ s. s.running };

    ghost room = { λ s. s.room };

    /// Fails where there is no memory for one thread more.
    fn admit(&mut self) -> Result<(), Failed> {
        if self.running.reserve(1).is_err() {
            self.faults.rise();
            return Err(Failed);
        }
        Ok(())
    }

    fn keep(&mut self, thread: JoinHandle<()>) {
        self.running.push_reserved(thread);
    }

    fn refuse(&mut self) {
        self.faults.rise();
    }

    fn join<R: Threads>(&mut self, rt: &R) {
        while let Some(thread) = self.running.pop() {
            thread.join(rt);
        }
    }
}
