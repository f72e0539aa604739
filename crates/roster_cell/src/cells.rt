//! What a reader holds of a site.

ghost use Rattle.std.specs.Prelude.{◌≡◌, ◌≢◌, IfOk, IfErr, OnErr, MatchOption, None, OnOk, Some, length, []};
ghost use Rattle.site_history.specs.Histories.{publications};
ghost use Rattle.turn_book.specs.Seats.{Looks};
ghost use Rattle.roster_cell.specs.Caches.{IsCached, IsLatest, number_of};

use outside::Keeper;
use roster_form::Publication;
use std::marker::Model;
use std::sync::{Arc, Wait};
use thiserror::Error;
use trust_types::NoMemory;
use turn_book::{Seat, Site};

/// A publication, or nothing, which a reader keeps between its looks. Contracts see the publication.
#[derive(Drop)]
pub struct Cache {
    held: Option<Arc<Publication>>,
}

impl Model for Cache {
    ghost use Rattle.std.specs.Prelude.{Option};
    ghost use Rattle.roster_form.specs.declared.publications.Publication.{Publication};
    ghost use Rattle.roster_cell.specs.Caches.{held_in};

    ghost Value = { Option Publication };

    ghost view = { λ cache. held_in cache.held };
}

/// The last publication isn't the one that a cache holds. Both are told by their numbers; an empty cache holds the number 0.
#[derive(Clone, Copy, Debug, Drop, PartialEq, Eq, Error)]
#[error("publication {shown} is out, and {held} is held")]
pub struct Moved {
    pub held: u32,
    pub shown: u32,
}

impl Cache {
    /// An empty cache.
    pub fn new() -> Cache
        ensures { result ≡ None }
    {
        Cache { held: None }
    }

    /// The publication that it holds; `None` exactly where it is empty.
    pub fn publication(&self) -> Option<&Publication>
        ensures { MatchOption result (self.now ≡ None) (λ q. self.now ≡ Some q.now) }
    {
        match &self.held {
            Some(held) => Some(&**held),
            None => None,
        }
    }

    fn number(&self) -> u32
        ensures { result ≡ number_of self.now }
    {
        match &self.held {
            Some(held) => held.number,
            None => 0,
        }
    }
}

/// The last publication of all that the seat has then seen, where the cache holds it; `None` exactly where there is none. It takes one load, waits for nobody and
/// takes no memory.
///
/// # Errors
/// [`Moved`] exactly where the cache holds another one: [`refresh`] gets the last.
pub fn latest<'c, K: Keeper>(
    site: &Site<K>,
    seat: &mut Seat<K>,
    cache: &'c Cache,
) -> Result<Option<&'c Publication>, Moved>
    requires site { seat.old.site ≡ site.now.table.shared.table_id }
    requires cached { IsCached seat.old.seen cache.now }
    ensures looks { Looks seat.old seat.new }
    ensures cached { IsCached seat.new.seen cache.now }
    ensures latest { IfOk result (λ found. MatchOption found (publications seat.new.seen ≡ []) (λ q. IsLatest seat.new.seen q.now)) }
    ensures current { OnOk result (number_of cache.now ≡ length (publications seat.new.seen)) }
    ensures moved { IfErr result (λ moved. (moved.held ≡ number_of cache.now) × (moved.shown ≡ length (publications seat.new.seen)) × (moved.held ≢ moved.shown)) }
{
    // Its contract says that what the seat has seen is legal.
    let _number = seat.number();
    let front = site.news(seat);
    let held = cache.number();
    if held == front.publications {
        Ok(cache.publication())
    } else {
        Err(Moved {
            held,
            shown: front.publications,
        })
    }
}

/// Lets a cache hold the last publication of all that the seat has then seen, or nothing where there is none. It waits for the turn.
///
/// # Errors
/// [`NoMemory`] where there isn't enough; the cache is then as it was.
pub fn refresh<K: Keeper, R: Wait>(
    rt: &R,
    site: &Site<K>,
    seat: &mut Seat<K>,
    cache: &mut Cache,
) -> Result<(), NoMemory>
    requires site { seat.old.site ≡ site.now.table.shared.table_id }
    requires cached { IsCached seat.old.seen cache.old }
    ensures looks { Looks seat.old seat.new }
    ensures cached { IsCached seat.new.seen cache.new }
    ensures latest { IfOk result (λ _. number_of cache.new ≡ length (publications seat.new.seen)) }
    ensures same { OnErr result (cache.new ≡ cache.old) }
{
    // Its contract says that what the seat has seen is legal.
    let _number = seat.number();
    match site.fetch(rt, seat) {
        Ok(found) => {
            cache.held = found;
            Ok(())
        }
        Err(error) => Err(error),
    }
}
