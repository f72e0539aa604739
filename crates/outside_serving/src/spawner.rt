//! Jobs, and what starts them.
ghost use Rattle.std.specs.Prelude.{◌≡◌, ◌<◌, ◌+◌, ℕ, is_err, OnOk};
ghost use Rattle.std.specs.Thread.{IsSync};
ghost use Rattle.outside.specs.Causes.{HasCause, one_more};
ghost use Rattle.outside_serving.specs.Spawners.{CountsRunning};

use crate::counts::Count;
use outside::Failed;
use std::marker::Model;
use std::sync::Wait;
use std::thread;
use std::thread::{JoinHandle, Threads};

/// A piece of work for a thread of its own. It may wait, and start threads.
pub trait Job: Drop {
    /// Does the work.
    // No `'static` on `R`, which an impl couldn't be proved to fit; and an impl knows that `R` is `Sync` by the clause alone.
    fn run<R: Wait + Threads + Sync>(self, rt: &R)
        requires { IsSync R.row };
}

/// What jobs are started by ([`start`]): it says whether one more may start, and keeps the threads until they have ended.
pub trait Spawner: Drop {
    /// How many starts failed. The count stands still at the last value of a `u64`.
    ghost faults: { Self → ℕ };

    /// How many threads it keeps.
    ghost running: { Self → ℕ };

    /// How many threads more it has room for.
    ghost room: { Self → ℕ };

    /// Makes room for one thread more.
    ///
    /// # Errors
    /// [`Failed`] where no more are to start, or there is no room, which is counted.
    fn admit(&mut self) -> Result<(), Failed>
        ensures room { OnOk result (0 < room self.new) }
        ensures running { running self.new ≡ running self.old }
        ensures cause { HasCause (faults self.old) (faults self.new) (is_err result) };

    /// Keeps a thread, for which there is room. It takes no memory.
    fn keep(&mut self, thread: JoinHandle<()>)
        requires { 0 < room self.old }
        ensures running { running self.new ≡ running self.old + 1 }
        ensures faults { faults self.new ≡ faults self.old };

    /// Counts a thread that the system didn't start.
    fn refuse(&mut self)
        ensures running { running self.new ≡ running self.old }
        ensures faults { faults self.new ≡ one_more (faults self.old) };

    /// Waits until each thread that it keeps has ended, and keeps none of them.
    fn join<R: Threads>(&mut self, rt: &R)
        ensures running { running self.new ≡ 0 }
        ensures faults { faults self.new ≡ faults self.old };
}

/// Starts a job in a thread of its own, which the spawner keeps.
///
/// # Errors
/// [`Failed`] where the spawner admits no more or the system started no thread, which is counted. The job is then dropped, and hasn't run.
pub fn start<T: Spawner, R: Wait + Threads + Copy + Send + Sync + 'static, J: Job + Send + 'static>(
    spawner: &mut T,
    rt: &R,
    job: J,
) -> Result<(), Failed>
    ensures running { CountsRunning (T.running spawner.old) (T.running spawner.new) result }
    ensures cause { HasCause (T.faults spawner.old) (T.faults spawner.new) (is_err result) }
{
    spawner.admit()?;
    let theirs = *rt;
    match thread::spawn(rt, move || job.run(&theirs)) {
        Ok(thread) => {
            spawner.keep(thread);
            Ok(())
        }
        Err(_) => {
            spawner.refuse();
            Err(Failed)
        }
    }
}

/// A spawner that refuses every start, so that whoever asks does the work itself. Contracts see a `Crew`: it has room for a thread that it is given, but
/// admits none.
#[derive(Drop)]
pub struct HereSpawner {
    kept: Option<JoinHandle<()>>,
    faults: Count,
}

impl Model for HereSpawner {
    ghost use Rattle.std.specs.Prelude.{if◌then◌else◌, is_some};
    ghost use Rattle.outside_serving.specs.Spawners.{Crew};

    ghost Value = { Crew };

    ghost view = { λ s. record { running = if is_some s.kept then 1 else 0; room = if is_some s.kept then 0 else 1; faults = s.faults } };
}

impl HereSpawner {
    /// A spawner that refused no start yet.
    pub fn new() -> HereSpawner
        ensures running { result.running ≡ 0 }
        ensures faults { result.faults ≡ 0 }
    {
        HereSpawner {
            kept: None,
            faults: Count::zero(),
        }
    }
}

impl Spawner for HereSpawner {
    ghost faults = { λ s. s.faults };

    ghost running = { λ s. s.running };

    ghost room = { λ s. s.room };

    /// Fails.
    fn admit(&mut self) -> Result<(), Failed> {
        self.faults.rise();
        Err(Failed)
    }

    fn keep(&mut self, thread: JoinHandle<()>) {
        self.kept = Some(thread);
    }

    fn refuse(&mut self) {
        self.faults.rise();
    }

    fn join<R: Threads>(&mut self, rt: &R) {
        if let Some(thread) = self.kept.take() {
            thread.join(rt);
        }
    }
}
