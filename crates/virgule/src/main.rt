//! The site engine as a program.
#![tactic(auto)]

ghost use Rattle.std.specs.Prelude.{◌≡◌};
ghost use Rattle.std.specs.Process.{exit_status};
ghost use Rattle.commands.specs.Outcomes.{code_after};

use commands::Status;
use keeper_sqlite::SqliteKeeper;
use outside::{Keeper, MemKeeper, StdSink, StdSource};
use outside_real::{SystemClock, SystemEntropy, TcpPort, ThreadSpawner};
use serve_words::ServePlan;
use serving::serve;
use site_runs::{Wants, run};
use std::env;
use std::io::ErrorKind;
use std::process::ExitCode;
use std::sync::Wait;
use std::thread::Threads;
use trust_types::NoMemory;

fn main(rt: HostRuntime) -> ExitCode {
    let ended = match start(&rt) {
        Ok(Started::Ended(status)) => Ok(status),
        Ok(Started::Serving(plan)) => Ok(serve_over(&rt, &rt, &plan, keeper_of(&rt, &plan))),
        Err(NoMemory) => Err(NoMemory),
    };
    exit_of(ended)
}

/// What became of the words of the command line.
#[derive(Drop)]
enum Started {
    /// What they ask was done.
    Ended(Status),
    /// They ask for a server.
    Serving(ServePlan),
}

/// How the process ends.
fn exit_of(ended: Result<Status, NoMemory>) -> ExitCode
    ensures { exit_status result ≡ code_after ended }
{
    match ended {
        Ok(status) => ExitCode::from(status.code()),
        Err(NoMemory) => ExitCode::from(Status::NoMemory.code()),
    }
}

/// Does what the words of the command line ask, unless they ask for a server. Words that are no text are as none.
fn start(rt: &HostRuntime) -> Result<Started, NoMemory> {
    let alloc = rt.alloc();
    let owned: Vec<String> = match env::args(rt) {
        Ok(args) => args.skip(1).collect(alloc)?,
        Err(error) if error.kind() == ErrorKind::OutOfMemory => return Err(NoMemory),
        Err(_) => Vec::new(alloc),
    };
    let words: Vec<&str> = owned.iter().map(|word| word.as_str()).collect(alloc)?;
    let status = match Wants::of_words(alloc, &words)? {
        Wants::Run => run_over(rt, &words, in_memory(rt)),
        Wants::RunOn(file) => run_over(rt, &words, SqliteKeeper::open_file(rt, &file)),
        Wants::Serve(plan) => return Ok(Started::Serving(plan)),
    };
    Ok(Started::Ended(status))
}

/// A keeper in memory, with no rows.
fn in_memory(rt: &HostRuntime) -> MemKeeper {
    let alloc = rt.alloc();
    MemKeeper::new(alloc, Vec::new(alloc), Vec::new(alloc))
}

/// Runs over the standard input and output, and this keeper.
fn run_over<K: Keeper>(rt: &HostRuntime, words: &[&str], keeper: K) -> Status {
    let mut source = StdSource::new(rt);
    let mut sink = StdSink::new(rt);
    run(rt.alloc(), words, &mut source, &mut sink, keeper).status
}

/// The keeper of a server's rows: in the plan's file, or in memory.
fn keeper_of(rt: &HostRuntime, plan: &ServePlan) -> SqliteKeeper {
    match &plan.db {
        Some(file) => SqliteKeeper::open_file(rt, file),
        None => SqliteKeeper::in_memory(rt.alloc()),
    }
}

/// Serves at the plan's address, with threads of the machine, over this keeper.
fn serve_over<K: Keeper + Send + 'static, R: Wait + Threads + Copy + Send + Sync + 'static>(
    rt: &HostRuntime,
    threads: &R,
    plan: &ServePlan,
    keeper: K,
) -> Status {
    let alloc = rt.alloc();
    let mut port = TcpPort::bind(rt, plan.listen.as_str());
    let clock = SystemClock::new(*rt);
    let entropy = SystemEntropy::new(*rt);
    let mut sink = StdSink::new(rt);
    let mut spawner = ThreadSpawner::new(alloc);
    serve(
        threads,
        alloc,
        plan,
        keeper,
        &mut port,
        &clock,
        &entropy,
        &mut sink,
        &mut spawner,
    )
    .status
}
