//! The conversation over a link.

ghost use Rattle.std.specs.Prelude.{◌≡◌, []};
ghost use Rattle.outside_serving.specs.Clocks.{Dial};
ghost use Rattle.outside_serving.specs.Links.{Line};
ghost use Rattle.outside_serving.specs.Words.{Pool};
ghost use Rattle.roster_cell.specs.Caches.{IsCached};
ghost use Rattle.site_history.specs.Legal.{IsLegal};
ghost use Rattle.turn_book.specs.Seats.{IsSame, StartsWith};
ghost use Rattle.conversation.specs.Conversations.{Conversed};
ghost use Rattle.conversation.specs.Ends.{world};

use crate::conversing::converse;
use crate::inbox::Inbox;
use crate::served::Served;
use exchanges::{LinkLog, Room};
use outside::Keeper;
use outside_serving::{Clock, Entropy, Link};
use roster_cell::Cache;
use std::alloc::Global;
use std::sync::Wait;
use turn_book::{Seat, Site};

/// Why a conversation ended.
#[derive(Clone, Copy, Debug, PartialEq, Eq)]
pub enum Why {
    /// The input ended between two requests, or the last request that was answered asked to close.
    Closed,
    /// The input ended within a request.
    CutShort,
    /// As many requests were answered as a link may have.
    Limit,
    /// What came is no request that is taken. It was answered with this status: 400, 413, 431 or 501.
    Bad(u16),
    /// A read of the link failed.
    ReadFault,
    /// A write of the link failed. Only a first part of the responses was written.
    WriteFault,
    /// The clock failed. The request isn't answered.
    ClockFault,
    /// The source of words failed. The login isn't answered.
    EntropyFault,
    /// Memory ran out. The response to the last request that was answered may be missing as a whole.
    NoMemory,
}

/// How a conversation ended, what was exchanged, and the link, as it was left.
#[derive(Drop)]
pub struct LinkEnd<L: Link> {
    pub why: Why,
    pub exchanges: LinkLog,
    pub served: Served<L>,
}

/// Answers what a client asks over a link, one request after another, through a seat at a site, until an end that [`Why`] names. It reads as much as the
/// link gives at once, keeps at most 81,920 bytes that are not yet answered, and answers each whole request among them before it reads again. At most
/// [`exchanges::MOST_EXCHANGES`] requests are answered. The clock is asked once for each, before anything else is done for it, and once for the page of a
/// [`Why::Bad`]; each login then draws one token. The cache serves one link after another at the same seat. It may wait for the link and for the turn.
pub fn serve_link<K: Keeper, L: Link, C: Clock, E: Entropy, R: Wait>(
    rt: &R,
    alloc: Global,
    site: &Site<K>,
    seat: &mut Seat<K>,
    cache: &mut Cache,
    link: L,
    clock: &mut C,
    entropy: &mut E,
) -> LinkEnd<L>
    requires site { seat.old.site ≡ site.now.table.shared.table_id }
    requires cached { IsCached seat.old.seen cache.old }
    ensures same { IsSame seat.old seat.new }
    ensures legal { IsLegal seat.new.seen }
    ensures begins { StartsWith seat.new.seen seat.old.seen }
    ensures cached { IsCached seat.new.seen cache.new }
    ensures conversed { Conversed (world seat.old (L.line link) (C.dial clock.old) (E.pool entropy.old)) (world seat.new (L.line result.served) (C.dial clock.new) (E.pool entropy.new)) result.exchanges result.why }
{
    // Its contract says that what the seat has seen is legal.
    let _number = seat.number();
    let mut link = link;
    let Ok(mut log) = Room::reserve(alloc) else {
        return unheard(alloc, link);
    };
    let Ok(mut inbox) = Inbox::new(alloc) else {
        return unheard(alloc, link);
    };
    let why = converse(
        rt, alloc, site, seat, cache, &mut link, clock, entropy, &mut inbox, &mut log,
    );
    LinkEnd {
        why,
        exchanges: log.close(),
        served: Served::of(link),
    }
}

/// A link from which nothing was read, for want of memory.
fn unheard<L: Link>(alloc: Global, link: L) -> LinkEnd<L>
    ensures why { result.why ≡ Why.NoMemory }
    ensures none { result.exchanges ≡ [] }
    ensures same { result.served ≡ link }
{
    LinkEnd {
        why: Why::NoMemory,
        exchanges: LinkLog::new(alloc),
        served: Served::of(link),
    }
}
