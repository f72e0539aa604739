//! The command that reads the words of `serve`: each of its options takes one value.

ghost use Rattle.std.specs.Prelude.{◌≡◌, IfOk, false};
ghost use Rattle.clap.specs.Words.{app_of, rule_of};
ghost use Rattle.serve_words.specs.Options.{listen_rule, db_rule, caps_rule, links_rule, workers_rule, accept_rule, serve_app};

use clap::{Arg, Command, value_parser};
use std::alloc::{AllocError, Global};

/// `--listen ADDR`, without which no server is asked for.
fn listen_arg<'a>(alloc: Global) -> Arg<'a>
    ensures rule { rule_of result ≡ listen_rule }
    ensures local { result.global ≡ false }
{
    Arg::new(alloc, "listen").long("listen").required(true)
}

/// `--db FILE`.
fn db_arg<'a>(alloc: Global) -> Arg<'a>
    ensures rule { rule_of result ≡ db_rule }
    ensures local { result.global ≡ false }
{
    Arg::new(alloc, "db").long("db")
}

/// `--caps LIST`.
fn caps_arg<'a>(alloc: Global) -> Arg<'a>
    ensures rule { rule_of result ≡ caps_rule }
    ensures local { result.global ≡ false }
{
    Arg::new(alloc, "caps").long("caps")
}

/// `--links N`.
fn links_arg<'a>(alloc: Global) -> Arg<'a>
    ensures rule { rule_of result ≡ links_rule }
    ensures local { result.global ≡ false }
{
    Arg::new(alloc, "links")
        .long("links")
        .value_parser(value_parser!(u32).range(1..=48))
        .default_value("8")
}

/// `--workers N`.
fn workers_arg<'a>(alloc: Global) -> Arg<'a>
    ensures rule { rule_of result ≡ workers_rule }
    ensures local { result.global ≡ false }
{
    Arg::new(alloc, "workers")
        .long("workers")
        .value_parser(value_parser!(u32).range(1..=8))
        .default_value("1")
}

/// `--accept N`.
fn accept_arg<'a>(alloc: Global) -> Arg<'a>
    ensures rule { rule_of result ≡ accept_rule }
    ensures local { result.global ≡ false }
{
    Arg::new(alloc, "accept")
        .long("accept")
        .value_parser(value_parser!(u32))
        .default_value("0")
}

/// The command, whose words are those behind `serve`.
pub fn serve_command<'a>(alloc: Global) -> Result<Command<'a>, AllocError>
    ensures { IfOk result (λ command. app_of command ≡ serve_app) }
{
    let listen = listen_arg(alloc);
    let db = db_arg(alloc);
    let caps = caps_arg(alloc);
    let links = links_arg(alloc);
    let workers = workers_arg(alloc);
    let accept = accept_arg(alloc);
    let command = Command::new(alloc, "serve")
        .no_binary_name(true)
        .arg(listen)?
        .arg(db)?
        .arg(caps)?
        .arg(links)?
        .arg(workers)?
        .arg(accept)?;
    Ok(command)
}
