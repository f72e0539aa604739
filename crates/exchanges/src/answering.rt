//! What answers a request.

ghost use Rattle.std.specs.Prelude.{◌≡◌, ℕ, List, Option, Some, None, is_some, length, IfOk, OnOk, OnErr};
ghost use Rattle.http_requests.specs.declared.requests.Request.{Request as AnyRequest};
ghost use Rattle.http_pages.specs.Rosters.{AsksForRoster};
ghost use Rattle.roster_cell.specs.Caches.{IsCached, number_of};
ghost use Rattle.roster_form.specs.declared.publications.Publication.{Publication as Held};
ghost use Rattle.site_history.specs.Histories.{publications};
ghost use Rattle.trust_types.specs.Kept.{IsMoment};
ghost use Rattle.turn_book.specs.Seats.{Looks};
ghost use Rattle.exchanges.specs.Asked.{IsActOf, fixed_status, is_login, query_of};
ghost use Rattle.exchanges.specs.Answering.{AnswersTo, CanBeSent, content_of};

use crate::logs::Kind;
use crate::wanted::{Wanted, wanted_by};
use http_requests::Request;
use outside::Keeper;
use roster_cell::{Cache, latest, refresh};
use sessions::Token;
use site_history::{Act, Answer, Query, Refusal, View};
use std::alloc::Global;
use std::sync::Wait;
use trust_types::NoMemory;
use turn_book::{Seat, Site};

/// What a response shows.
#[derive(Drop)]
pub enum Page {
    /// The answer to an act.
    Act(Answer),
    View(View),
    /// The publication that the cache holds, or that there is none.
    Roster,
    /// Nothing of the site: a status alone.
    Status(u16),
}

/// By what a request is answered, and what the response shows.
#[derive(Drop)]
pub struct Decision {
    pub kind: Kind,
    pub page: Page,
}

/// Submits an act.
fn enter<K: Keeper, R: Wait>(
    rt: &R,
    site: &Site<K>,
    seat: &mut Seat<K>,
    act: Act,
    moment: u64,
) -> Result<Decision, NoMemory>
    requires site { seat.old.site ≡ site.now.table.shared.table_id }
    requires moment { IsMoment moment }
    ensures ok { IfOk result (λ d. (q : AnyRequest) (token : Option (List ℕ)) (held : Option Held) → fixed_status q ≡ None → IsActOf q token act
        → AnswersTo seat.old seat.new q token moment d.kind (content_of d.page held) × CanBeSent q d.page) }
    ensures err { OnErr result (Looks seat.old seat.new) }
{
    match site.submit(rt, seat, act, moment) {
        Ok(reply) => {
            let long = seat.length();
            Ok(Decision {
                kind: Kind::Entry(long - 1),
                page: Page::Act(Ok(reply)),
            })
        }
        Err(refusal) => {
            let total = seat.length();
            match refusal {
                Refusal::NoMemory => Err(NoMemory),
                Refusal::HistoryFull => Ok(Decision {
                    kind: Kind::Prefix(total),
                    page: Page::Act(Err(Refusal::HistoryFull)),
                }),
                Refusal::TextFull(bytes) => Ok(Decision {
                    kind: Kind::Prefix(total),
                    page: Page::Act(Err(Refusal::TextFull(bytes))),
                }),
            }
        }
    }
}

/// Looks at the site.
fn look<K: Keeper, R: Wait>(
    rt: &R,
    site: &Site<K>,
    seat: &mut Seat<K>,
    query: &Query,
) -> Result<Decision, NoMemory>
    requires site { seat.old.site ≡ site.now.table.shared.table_id }
    ensures ok { IfOk result (λ d. (q : AnyRequest) (token : Option (List ℕ)) (moment : ℕ) (held : Option Held) → fixed_status q ≡ None → query_of q.route ≡ Some query.now
        → AnswersTo seat.old seat.new q token moment d.kind (content_of d.page held) × CanBeSent q d.page) }
    ensures err { OnErr result (Looks seat.old seat.new) }
{
    match site.view(rt, seat, query) {
        Ok(view) => {
            let long = seat.length();
            Ok(Decision {
                kind: Kind::Prefix(long),
                page: Page::View(view),
            })
        }
        Err(error) => Err(error),
    }
}

/// Lets the cache hold the last publication of what the seat has then seen.
fn keep_current<K: Keeper, R: Wait>(
    rt: &R,
    site: &Site<K>,
    seat: &mut Seat<K>,
    cache: &mut Cache,
) -> Result<(), NoMemory>
    requires site { seat.old.site ≡ site.now.table.shared.table_id }
    requires cached { IsCached seat.old.seen cache.old }
    ensures looks { Looks seat.old seat.new }
    ensures cached { IsCached seat.new.seen cache.new }
    ensures current { OnOk result (number_of cache.new ≡ length (publications seat.new.seen)) }
{
    match latest(site, seat, cache) {
        Ok(_) => Ok(()),
        Err(_) => refresh(rt, site, seat, cache),
    }
}

/// The number of the publication in a cache, 0 of none.
fn number_in(cache: &Cache) -> u32
    ensures { result ≡ number_of cache.now }
{
    match cache.publication() {
        Some(publication) => publication.number,
        None => 0,
    }
}

/// Shows the last publication.
fn show<K: Keeper, R: Wait>(
    rt: &R,
    site: &Site<K>,
    seat: &mut Seat<K>,
    cache: &mut Cache,
) -> Result<Decision, NoMemory>
    requires site { seat.old.site ≡ site.now.table.shared.table_id }
    requires cached { IsCached seat.old.seen cache.old }
    ensures cached { IsCached seat.new.seen cache.new }
    ensures ok { IfOk result (λ d. (q : AnyRequest) (token : Option (List ℕ)) (moment : ℕ) → AsksForRoster q.route
        → AnswersTo seat.old seat.new q token moment d.kind (content_of d.page cache.new) × CanBeSent q d.page) }
    ensures err { OnErr result (Looks seat.old seat.new) }
{
    match keep_current(rt, site, seat, cache) {
        Ok(()) => {
            let number = number_in(cache);
            Ok(Decision {
                kind: Kind::Shown(number),
                page: Page::Roster,
            })
        }
        Err(error) => Err(error),
    }
}

/// Answers a request through a seat at a moment, a login under a token that was drawn for it. An act is submitted, a view is looked at, and for a roster
/// or a proof the cache is brought up to the last publication; a refusal and the page of the forms ask nothing of the site. It waits for the turn.
///
/// # Errors
/// [`NoMemory`] where there isn't enough; no entry was made then.
pub fn answer<K: Keeper, R: Wait>(
    rt: &R,
    alloc: Global,
    site: &Site<K>,
    seat: &mut Seat<K>,
    cache: &mut Cache,
    request: &Request,
    token: &Option<Token>,
    moment: u64,
) -> Result<Decision, NoMemory>
    requires site { seat.old.site ≡ site.now.table.shared.table_id }
    requires cached { IsCached seat.old.seen cache.old }
    requires token { is_some token.now ≡ is_login request.now.route }
    requires moment { IsMoment moment }
    ensures cached { IsCached seat.new.seen cache.new }
    ensures answers { IfOk result (λ d. AnswersTo seat.old seat.new request.now token.now moment d.kind (content_of d.page cache.new)) }
    ensures page { IfOk result (λ d. CanBeSent request.now d.page) }
    ensures looks { OnErr result (Looks seat.old seat.new) }
{
    // Its contract says that what the seat has seen is legal.
    let _number = seat.number();
    let Ok(wanted) = wanted_by(alloc, request, token) else {
        return Err(NoMemory);
    };
    match wanted {
        Wanted::Status(status) => Ok(Decision {
            kind: Kind::Fixed,
            page: Page::Status(status),
        }),
        Wanted::View(query) => look(rt, site, seat, &query),
        Wanted::Act(act) => enter(rt, site, seat, act, moment),
        Wanted::Roster => show(rt, site, seat, cache),
    }
}
