//! One request after another.

ghost use Rattle.std.specs.Prelude.{◌≡◌, ◌<◌, ◌+◌, [], ◌∷◌, ℕ, List, Option, length, drop, true, Some, None, IfNone, MatchResult};
ghost use Rattle.exchanges.specs.Answering.{CanBeSent, content_of};
ghost use Rattle.exchanges.specs.Asked.{is_login};
ghost use Rattle.exchanges.specs.declared.logs.Exchange.{Exchange as AnyExchange};
ghost use Rattle.http_requests.specs.declared.next.Next.TheVariants.{Whole, Bad};
ghost use Rattle.http_requests.specs.Requests.{IsRequest};
ghost use Rattle.http_requests.specs.Laws.{IsRefusal};
ghost use Rattle.outside_serving.specs.Clocks.{Dial};
ghost use Rattle.outside_serving.specs.Links.{Line};
ghost use Rattle.outside_serving.specs.Words.{Pool, Missed};
ghost use Rattle.roster_cell.specs.Caches.{IsCached};
ghost use Rattle.site_history.specs.Legal.{IsLegal};
ghost use Rattle.trust_types.specs.Kept.{IsMoment};
ghost use Rattle.turn_book.specs.Seats.{Seated};
ghost use Rattle.conversation.specs.Ends.{World, world};
ghost use Rattle.conversation.specs.inner.Hearing.{Delivers, DrawnFor};
ghost use Rattle.conversation.specs.inner.Talking.{Talking, Ended, Goes};

use crate::inbox::Inbox;
use crate::linking::Why;
use crate::saying::{Heard, hear, say};
use exchanges::{Exchange, MOST_EXCHANGES, Page, Room, answer, respond};
use http_pages::fixed_page;
use http_requests::{Request, Route};
use outside::{Failed, Keeper};
use outside_serving::{Clock, Entropy, Link};
use roster_cell::Cache;
use sessions::Token;
use std::alloc::Global;
use std::sync::Wait;
use turn_book::{Seat, Site};

/// The token of a login. Nothing is drawn for another request.
fn draw<E: Entropy>(entropy: &mut E, route: &Route) -> Result<Option<Token>, Failed>
    ensures { MatchResult result (DrawnFor (is_login route.now) (E.pool entropy.old) (E.pool entropy.new)) (λ _. (is_login route.now ≡ true) × Missed (E.pool entropy.old) (E.pool entropy.new)) }
{
    match route {
        Route::Login { .. } => {
            let mut word = [0u8; 16];
            match entropy.fill(&mut word) {
                Ok(()) => Ok(Some(Token(word))),
                Err(fault) => Err(fault),
            }
        }
        _ => Ok(None),
    }
}

/// Writes a response.
fn deliver<L: Link, R: Wait>(
    rt: &R,
    alloc: Global,
    link: &mut L,
    request: &Request,
    page: &Page,
    token: &Option<Token>,
    cache: &Cache,
    moment: u64,
) -> Option<Why>
    requires page { CanBeSent request.now page.now }
    requires moment { IsMoment moment }
    ensures { Delivers (L.line link.old) (L.line link.new) request.now token.now (content_of page.now cache.now) moment result }
{
    let Ok(bytes) = respond(alloc, request, page, token, cache, moment) else {
        return Some(Why::NoMemory);
    };
    match say(rt, link, &bytes) {
        Ok(()) => {
            if request.close {
                Some(Why::Closed)
            } else {
                None
            }
        }
        Err(_) => Some(Why::WriteFault),
    }
}

/// Answers one request.
fn take_up<K: Keeper, L: Link, C: Clock, E: Entropy, R: Wait>(
    rt: &R,
    alloc: Global,
    site: &Site<K>,
    seat: &mut Seat<K>,
    cache: &mut Cache,
    link: &mut L,
    clock: &mut C,
    entropy: &mut E,
    log: &mut Room,
    asked: &Request,
    used: usize,
) -> Option<Why>
    requires site { seat.old.site ≡ site.now.table.shared.table_id }
    requires cached { IsCached seat.old.seen cache.old }
    requires room { length log.old < MOST_EXCHANGES }
    ensures cached { IsCached seat.new.seen cache.new }
    ensures count { IfNone result (length log.new ≡ length log.old + 1) }
    ensures goes { (before : World) (rest : List ℕ) → Talking before (world seat.old (L.line link.old) (C.dial clock.old) (E.pool entropy.old)) log.old rest → IsRequest rest (Whole asked.now used)
        → Goes before (world seat.new (L.line link.new) (C.dial clock.new) (E.pool entropy.new)) log.new (drop used rest) result }
{
    let Ok(moment) = clock.now() else {
        return Some(Why::ClockFault);
    };
    let Ok(token) = draw(entropy, &asked.route) else {
        return Some(Why::EntropyFault);
    };
    let Ok(decision) = answer(rt, alloc, site, seat, cache, asked, &token, moment) else {
        return Some(Why::NoMemory);
    };
    log.push(Exchange {
        used: used as u64,
        kind: decision.kind,
    });
    deliver(
        rt,
        alloc,
        link,
        asked,
        &decision.page,
        &token,
        cache,
        moment,
    )
}

/// Answers what is no request, and then closes.
fn refuse<L: Link, C: Clock, R: Wait>(
    rt: &R,
    alloc: Global,
    link: &mut L,
    clock: &mut C,
    status: u16,
) -> Why
    requires { IsRefusal status }
    ensures { (before : World) (seat : Seated) (pool : Pool) (log : List AnyExchange) (rest : List ℕ) → Talking before (world seat (L.line link.old) (C.dial clock.old) pool) log rest → IsRequest rest (Bad status) → length log < MOST_EXCHANGES
        → Ended before (world seat (L.line link.new) (C.dial clock.new) pool) log result }
{
    let Ok(moment) = clock.now() else {
        return Why::ClockFault;
    };
    let Ok(bytes) = fixed_page(alloc, status, true, false, moment) else {
        return Why::NoMemory;
    };
    match say(rt, link, &bytes) {
        Ok(()) => Why::Bad(status),
        Err(_) => Why::WriteFault,
    }
}

/// A request is heard and answered, or the conversation ends.
fn turn<K: Keeper, L: Link, C: Clock, E: Entropy, R: Wait>(
    rt: &R,
    alloc: Global,
    site: &Site<K>,
    seat: &mut Seat<K>,
    cache: &mut Cache,
    link: &mut L,
    clock: &mut C,
    entropy: &mut E,
    inbox: &mut Inbox,
    log: &mut Room,
) -> Option<Why>
    requires site { seat.old.site ≡ site.now.table.shared.table_id }
    requires cached { IsCached seat.old.seen cache.old }
    requires room { length log.old < MOST_EXCHANGES }
    ensures cached { IsCached seat.new.seen cache.new }
    ensures count { IfNone result (length log.new ≡ length log.old + 1) }
    ensures goes { (before : World) → Talking before (world seat.old (L.line link.old) (C.dial clock.old) (E.pool entropy.old)) log.old inbox.old
        → Goes before (world seat.new (L.line link.new) (C.dial clock.new) (E.pool entropy.new)) log.new inbox.new result }
{
    match hear(rt, alloc, link, inbox) {
        Heard::Request(asked, used) => {
            inbox.skip(used);
            take_up(
                rt, alloc, site, seat, cache, link, clock, entropy, log, &asked, used,
            )
        }
        Heard::Bad(status) => Some(refuse(rt, alloc, link, clock, status)),
        Heard::End => {
            if inbox.is_empty() {
                Some(Why::Closed)
            } else {
                Some(Why::CutShort)
            }
        }
        Heard::Fault => Some(Why::ReadFault),
        Heard::NoMemory => Some(Why::NoMemory),
    }
}

/// Answers one request after another.
pub(crate) fn converse<K: Keeper, L: Link, C: Clock, E: Entropy, R: Wait>(
    rt: &R,
    alloc: Global,
    site: &Site<K>,
    seat: &mut Seat<K>,
    cache: &mut Cache,
    link: &mut L,
    clock: &mut C,
    entropy: &mut E,
    inbox: &mut Inbox,
    log: &mut Room,
) -> Why
    requires site { seat.old.site ≡ site.now.table.shared.table_id }
    requires cached { IsCached seat.old.seen cache.old }
    requires legal { IsLegal seat.old.seen }
    requires none { (log.old ≡ []) × (inbox.old ≡ []) }
    ensures cached { IsCached seat.new.seen cache.new }
    ensures ended { Ended (world seat.old (L.line link.old) (C.dial clock.old) (E.pool entropy.old)) (world seat.new (L.line link.new) (C.dial clock.new) (E.pool entropy.new)) log.new result }
{
    for i in 0..MOST_EXCHANGES {
        if let Some(why) = turn(
            rt, alloc, site, seat, cache, link, clock, entropy, inbox, log,
        ) {
            return why;
        }
    }
    Why::Limit
}
