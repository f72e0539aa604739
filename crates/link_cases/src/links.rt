//! Links that are served.

ghost use Rattle.std.specs.Prelude.{◌≡◌, ◌≤◌, IfOk};

use crate::talks::Talk;
use anyhow::{Result, bail};
use conversation::{LinkEnd, serve_link};
use outside::MemKeeper;
use outside_serving::{ListEntropy, MemLink, StillClock};
use roster_cell::Cache;
use script::play;
use script_text::read_script;
use site_core::Book;
use std::alloc::{AllocError, Global};
use std::sync::Wait;
use turn_book::{Seat, Site};

/// What a client sends and takes at once, and in all.
#[derive(Clone, Copy)]
pub(crate) struct Client {
    /// The most bytes that come, or are taken, at once: 1 at least.
    pub piece: usize,
    /// How many bytes are taken in all.
    pub room: usize,
}

/// The first tokens that are drawn.
const TOKENS: [[u8; 16]; 2] = [
    [
        0x00, 0x11, 0x22, 0x33, 0x44, 0x55, 0x66, 0x77, 0x88, 0x99, 0xaa, 0xbb, 0xcc, 0xdd, 0xee,
        0xff,
    ],
    [
        0xff, 0xee, 0xdd, 0xcc, 0xbb, 0xaa, 0x99, 0x88, 0x77, 0x66, 0x55, 0x44, 0x33, 0x22, 0x11,
        0x00,
    ],
];

/// What calls are made of, some of which fail.
#[derive(Clone, Copy, Debug, PartialEq, Eq)]
pub(crate) enum Part {
    Link,
    Clock,
    Entropy,
}

/// The call of a part that is to fail, counted from 0.
#[derive(Clone, Copy)]
pub(crate) struct Fault {
    pub part: Part,
    pub call: u64,
}

/// The calls of that part that are to fail.
fn fails(alloc: Global, fault: Option<Fault>, part: Part) -> Result<Vec<u64>, AllocError> {
    let mut fails = Vec::new(alloc);
    if let Some(fault) = fault {
        if fault.part == part {
            fails.push(fault.call)?;
        }
    }
    Ok(fails)
}

/// The site that a script makes, with a seat.
fn open(alloc: Global, script: &str) -> Result<(Site<MemKeeper>, Seat<MemKeeper>)>
    ensures { IfOk result (λ opened. opened.1.site ≡ opened.0.table.shared.table_id) }
{
    let Ok(script) = read_script(alloc, script.as_bytes()) else {
        bail!("no script")
    };
    let keeper = MemKeeper::new(alloc, Vec::new(alloc), Vec::new(alloc));
    let Ok(mut book) = Book::open(alloc, keeper, script.caps) else {
        bail!("no book")
    };
    let mut out = Vec::new(alloc);
    play(alloc, &mut book, script, &mut out)?;
    Ok(Site::open(alloc, book)?)
}

/// Serves a client over a site of its own.
pub(crate) fn serve<R: Wait>(
    rt: &R,
    alloc: Global,
    talk: &Talk,
    client: Client,
    fault: Option<Fault>,
) -> Result<LinkEnd<MemLink>>
    requires { 1 ≤ client.piece }
{
    let (site, mut seat) = open(alloc, talk.script.as_str())?;
    let mut cache = Cache::new();
    let bytes = talk.sent.as_bytes().to_vec(alloc)?;
    let link_fails = fails(alloc, fault, Part::Link)?;
    let link = MemLink::new(alloc, bytes, client.room, client.piece, link_fails)?;
    let mut clock = StillClock::new(alloc, 0, fails(alloc, fault, Part::Clock)?);
    let tokens = TOKENS.to_vec(alloc)?;
    let mut entropy = ListEntropy::new(alloc, tokens, fails(alloc, fault, Part::Entropy)?);
    Ok(serve_link(
        rt,
        alloc,
        &site,
        &mut seat,
        &mut cache,
        link,
        &mut clock,
        &mut entropy,
    ))
}
