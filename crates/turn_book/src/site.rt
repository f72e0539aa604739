//! A site that seats share.

ghost use Rattle.std.specs.Prelude.{◌≡◌, ◌≢◌, ◌<◌, ◌+◌, ◌∷◌, [], true, false, length, IfOk, IfErr, OnErr, Some, None, MatchOption};
ghost use Rattle.trust_types.specs.Kept.{IsMoment, revision};
ghost use Rattle.site_history.specs.Answers.{Refuses, IsReply, entry_of, FreezeRefuses, PublishRefuses};
ghost use Rattle.site_history.specs.Histories.{History, Entry, Published, Freeze, Publish, places, records, publications, published_of, last_published, with_entry};
ghost use Rattle.site_history.specs.Legal.{IsLegal, IsFrozenOf, StandsFor, Suits};
ghost use Rattle.site_history.specs.Views.{said, shown};
ghost use Rattle.site_core.specs.Admission.{IsAdmitted};
ghost use Rattle.site_core.specs.Books.{IsSound};
ghost use Rattle.turn_book.specs.Seats.{Seated, Looks, Adds, Halves, StartsWith, mine, made_by, caller_of};
ghost use Rattle.turn_book.specs.inner.Known.{Later, turning, seeing};
ghost use Rattle.turn_book.specs.declared.site.SplitFault.TheVariants.{Spent};

use crate::rule::{Halve, Knowledge, Look, OneTurn, Release, Store, Take};
use crate::seat::{Seat, Token};
use atomic_table::{Refused, Table};
use frozen::Frozen;
use outside::Keeper;
use roster_form::{Candidate, Publication};
use site_core::Book;
use site_history::{Act, Answer, FreezeFault, PublishFault, Query, View};
use std::alloc::Global;
use std::marker::Brand;
use std::snapshot::Snapshot;
use std::sync::ledger::{Blank, Ledger};
use std::sync::{Arc, Wait};
use std::thread::yield_now;
use thiserror::Error;
use trust_types::{NoMemory, Steps};

/// The book of a site, shared by seats. One seat at a time has the turn, and the book with it; who only wants news waits for nobody.
#[derive(Drop)]
pub struct Site<K: Keeper> {
    table: Table<Option<Book<K>>, Knowledge, Snapshot<Book<K>>, OneTurn, Global>,
    ghost sized: { (table.shared.table_id.words ≡ 2) × (table.shared.table_id.slots ≡ 1) },
}

/// How many places the history has, opened records and entries, and how many of its entries are publications.
#[derive(Clone, Copy, Debug, PartialEq, Eq)]
pub struct Front {
    pub entries: u64,
    pub publications: u32,
}

/// Why a seat isn't split.
#[derive(Clone, Copy, Debug, Drop, PartialEq, Eq, Error)]
pub enum SplitFault {
    /// The seat has this number alone.
    #[error("the seat has the number {0} alone")]
    Spent(u64),
}

/// A site that was given up while a seat had the turn.
#[derive(Clone, Copy, Debug, Drop, PartialEq, Eq, Error)]
#[error("a seat has the turn")]
pub struct Away {
    /// The turn word: the number of that seat, and one more.
    pub turn: u64,
}

impl<K: Keeper> Site<K> {
    /// The site of a book, and its first seat, which has seen the book's history and made nothing. It has the numbers below 2 to the power 63.
    ///
    /// # Errors
    /// [`NoMemory`] where there isn't enough; the book is then dropped.
    pub fn open(alloc: Global, book: Book<K>) -> Result<(Site<K>, Seat<K>), NoMemory>
        ensures { IfOk result (λ r. (r.1.site ≡ r.0.table.shared.table_id) × (r.1.seen ≡ book.history) × (r.1.base ≡ places book.history) × (r.1.low ≡ 0) × (r.1.high ≡ 9_223_372_036_854_775_808) × (mine r.1 ≡ [])) }
    {
        let entries = book.length();
        let publications = u64::from(book.published());
        let opened = Snapshot::of(&book);
        let mut slots = Vec::new(alloc);
        slots.reserve(1)?;
        slots.push_reserved(Some(book));
        let words = [entries * 1_048_576 + publications, 0];
        match Table::new(alloc, &words, slots, &opened) {
            Ok((table, token)) => Ok((
                Site { table },
                Seat {
                    low: 0,
                    high: 1 << 63,
                    entries,
                    token,
                },
            )),
            Err(Refused { slots: _ }) => Err(NoMemory),
        }
    }

    /// Gives the upper half of a seat's numbers to a new seat, which has seen the same and made nothing. It waits for nobody and takes no memory.
    ///
    /// # Errors
    /// [`SplitFault::Spent`] exactly where the seat has one number, which it carries; the seat is then as it was. The first 63 splits of a site, of
    /// whichever seats, aren't refused ([`splits_leave_enough`](crate::splits_leave_enough)).
    pub fn split(&self, seat: &mut Seat<K>) -> Result<Seat<K>, SplitFault>
        requires { seat.old.site ≡ self.now.table.shared.table_id }
        ensures ok { IfOk result (λ other. Halves seat.old seat.new other) }
        ensures err { IfErr result (λ fault. (seat.new ≡ seat.old) × (seat.old.high ≡ seat.old.low + 1) × (fault ≡ Spent seat.old.low)) }
    {
        let low = seat.low;
        let high = seat.high;
        if high - low == 1 {
            return Err(SplitFault::Spent(low));
        }
        let middle = low + (high - low) / 2;
        let token = self.table.shared.split_seat::<Halve>(&mut seat.token);
        seat.high = middle;
        Ok(Seat {
            low: middle,
            high,
            entries: seat.entries,
            token,
        })
    }

    /// The front of the history, by one load. It waits for nobody, takes no memory and adds nothing: the seat has then seen that much. Neither number is
    /// below one that the seat has seen.
    pub fn news(&self, seat: &mut Seat<K>) -> Front
        requires { seat.old.site ≡ self.now.table.shared.table_id }
        ensures shows { (result.entries ≡ places seat.new.seen) × (result.publications ≡ length (publications seat.new.seen)) }
        ensures looks { Looks seat.old seat.new }
    {
        let word = self.table.shared.load::<Look>(&mut seat.token, 0);
        seat.entries = word / 1_048_576;
        Front {
            entries: seat.entries,
            publications: (word % 1_048_576) as u32,
        }
    }

    /// Waits for the turn, and takes the book out.
    fn take<R: Wait>(&self, rt: &R, token: &mut Token<K>, low: u64) -> Book<K>
        requires site { token.old.table_id ≡ self.now.table.shared.table_id }
        requires idle { (token.old.me.1 ≡ []) × (low ≡ token.old.me.0.low) × (low < 9_223_372_036_854_775_808) }
        ensures site { (token.new.table_id ≡ token.old.table_id) × (token.new.id ≡ token.old.id) }
        ensures later { Later token.old.me.0 result.history }
        ensures sound { IsSound K.rows K.faults result }
        ensures turn { token.new.me ≡ (turning (seeing token.old.me.0 result.history) true, (0, None) ∷ []) }
    {
        let shared = &self.table.shared;
        for _ in rt.forever() {
            if shared.compare_exchange::<Take>(token, 1, 0, low + 1) == 0 {
                return shared.exchange(token, 0, None).unwrap();
            }
            yield_now();
        }
        unreachable!()
    }

    /// Puts a book back to which nothing was added, and ends the turn. It answers how many places the history has.
    fn give(&self, token: &mut Token<K>, book: Book<K>) -> u64
        requires site { token.old.table_id ≡ self.now.table.shared.table_id }
        requires turn { (token.old.me.1 ≡ (0, None) ∷ []) × (token.old.me.0.turn ≡ true) × (token.old.me.0.seen ≡ book.history) }
        requires sound { IsSound K.rows K.faults book }
        ensures site { (token.new.table_id ≡ token.old.table_id) × (token.new.id ≡ token.old.id) }
        ensures idle { token.new.me ≡ (turning token.old.me.0 false, []) }
        ensures entries { result ≡ places book.history }
    {
        let entries = book.length();
        let shared = &self.table.shared;
        shared.exchange(token, 0, Some(book));
        shared.store::<Release>(token, 1, 0);
        entries
    }

    /// Puts a book back to which one entry was added, stores its front, and ends the turn. It answers how many places the history has.
    fn show(&self, token: &mut Token<K>, book: Book<K>) -> u64
        requires site { token.old.table_id ≡ self.now.table.shared.table_id }
        requires turn { (token.old.me.1 ≡ (0, None) ∷ []) × (token.old.me.0.turn ≡ true) }
        requires entry { (e : Entry) × (book.history ≡ with_entry token.old.me.0.seen e) × (caller_of e ≡ token.old.me.0.low) }
        ensures site { (token.new.table_id ≡ token.old.table_id) × (token.new.id ≡ token.old.id) }
        ensures idle { token.new.me ≡ (turning (seeing token.old.me.0 book.history) false, []) }
        ensures legal { IsLegal book.history }
        ensures entries { result ≡ places book.history }
    {
        let entries = book.length();
        let front = entries * 1_048_576 + u64::from(book.published());
        let shared = &self.table.shared;
        shared.exchange(token, 0, Some(book));
        shared.store::<Store>(token, 0, front);
        shared.store::<Release>(token, 1, 0);
        entries
    }

    /// Answers an act of the seat at a moment, as [`Book::submit`] does, after a history that begins with what the seat has seen. It waits for the turn.
    ///
    /// # Errors
    /// Those of [`Book::submit`]; the seat has then seen the history that refuses the act, and nothing was added.
    pub fn submit<R: Wait>(&self, rt: &R, seat: &mut Seat<K>, act: Act, moment: u64) -> Answer
        requires site { seat.old.site ≡ self.now.table.shared.table_id }
        requires moment { IsMoment moment }
        ensures reply { IfOk result (λ reply. (before : History) × IsReply before act reply × Adds seat.old before (entry_of seat.old.low act reply moment) seat.new) }
        ensures admitted { IfOk result (λ reply. (before : History) × IsAdmitted before act reply × Adds seat.old before (entry_of seat.old.low act reply moment) seat.new) }
        ensures refused { IfErr result (λ refusal. Refuses seat.new.seen act refusal) }
        ensures same { OnErr result (Looks seat.old seat.new) }
    {
        let low = seat.low;
        let mut book = self.take(rt, &mut seat.token, low);
        match book.submit(low, act, moment) {
            Ok(reply) => {
                let entries = self.show(&mut seat.token, book);
                seat.entries = entries;
                Ok(reply)
            }
            Err(refusal) => {
                let entries = self.give(&mut seat.token, book);
                seat.entries = entries;
                Err(refusal)
            }
        }
    }

    /// The graph of the site at a revision that is the newest of a history that begins with what the seat has seen, as [`Book::freeze`] gives it. It waits
    /// for the turn, and copies no certificate.
    ///
    /// # Errors
    /// Those of [`Book::freeze`]; the seat has then seen the history that refuses it, and nothing was added.
    pub fn freeze<R: Wait>(&self, rt: &R, seat: &mut Seat<K>) -> Result<Arc<Frozen>, FreezeFault>
        requires site { seat.old.site ≡ self.now.table.shared.table_id }
        ensures graph { IfOk result (λ f. (before : History) × IsFrozenOf before.opening (records before) f.value × Adds seat.old before (Freeze seat.old.low (revision (records before))) seat.new) }
        ensures refused { IfErr result (λ fault. FreezeRefuses seat.new.seen fault) }
        ensures same { OnErr result (Looks seat.old seat.new) }
    {
        self.freeze_counted::<R, Brand>(rt, seat, Blank::new(1))
    }

    fn freeze_counted<R: Wait, L: Ledger>(
        &self,
        rt: &R,
        seat: &mut Seat<K>,
        blank: Blank,
    ) -> Result<Arc<Frozen>, FreezeFault>
        requires site { seat.old.site ≡ self.now.table.shared.table_id }
        requires name { blank.name ≡ L.name }
        requires parts { blank.parts ≡ L.parts }
        requires some { 0 < blank.parts }
        ensures graph { IfOk result (λ f. (before : History) × IsFrozenOf before.opening (records before) f.value × Adds seat.old before (Freeze seat.old.low (revision (records before))) seat.new) }
        ensures refused { IfErr result (λ fault. FreezeRefuses seat.new.seen fault) }
        ensures same { OnErr result (Looks seat.old seat.new) }
    {
        let low = seat.low;
        let mut steps = Steps::<L>::new(blank);
        let mut book = self.take(rt, &mut seat.token, low);
        match book.freeze(low, &mut steps) {
            Ok(graph) => {
                let entries = self.show(&mut seat.token, book);
                seat.entries = entries;
                Ok(graph)
            }
            Err(fault) => {
                let entries = self.give(&mut seat.token, book);
                seat.entries = entries;
                Err(fault)
            }
        }
    }

    /// Publishes a candidate over the graph of records that the seat has seen, as [`Book::publish`] does, and answers the publication's number. It waits
    /// for the turn.
    ///
    /// # Errors
    /// Those of [`Book::publish`]; the seat has then seen the history that refuses the candidate, which is dropped, and nothing was added.
    pub fn publish<R: Wait>(
        &self,
        rt: &R,
        seat: &mut Seat<K>,
        candidate: Candidate,
    ) -> Result<u32, PublishFault>
        requires site { seat.old.site ≡ self.now.table.shared.table_id }
        requires candidate { Suits seat.old.seen.opening (records seat.old.seen) candidate }
        ensures number { IfOk result (λ n. (before : History) × (n ≡ length (publications before) + 1) × Adds seat.old before (Publish seat.old.low (published_of n candidate)) seat.new) }
        ensures refused { IfErr result (λ fault. PublishRefuses seat.new.seen candidate.graph.number fault) }
        ensures same { OnErr result (Looks seat.old seat.new) }
    {
        let low = seat.low;
        let mut book = self.take(rt, &mut seat.token, low);
        // Kept until the turn has ended, so that nobody waits while it is dropped.
        let _replaced = last_of(&book);
        match book.publish(low, candidate) {
            Ok(number) => {
                let entries = self.show(&mut seat.token, book);
                seat.entries = entries;
                Ok(number)
            }
            Err(fault) => {
                let entries = self.give(&mut seat.token, book);
                seat.entries = entries;
                Err(fault)
            }
        }
    }

    /// What a query shows of the site, as [`Book::view`] does, at a history that begins with what the seat has seen. It waits for the turn.
    ///
    /// # Errors
    /// [`NoMemory`] where there isn't enough; the seat has seen more all the same.
    pub fn view<R: Wait>(&self, rt: &R, seat: &mut Seat<K>, query: &Query) -> Result<View, NoMemory>
        requires { seat.old.site ≡ self.now.table.shared.table_id }
        ensures view { IfOk result (λ view. said view ≡ shown seat.new.seen query.now) }
        ensures looks { Looks seat.old seat.new }
    {
        let low = seat.low;
        let book = self.take(rt, &mut seat.token, low);
        let view = book.view(query);
        let entries = self.give(&mut seat.token, book);
        seat.entries = entries;
        view
    }

    /// The last publication of a history that begins with what the seat has seen, as [`Book::last`] lends it; `None` exactly where there is none. It waits
    /// for the turn.
    ///
    /// # Errors
    /// [`NoMemory`] where there isn't enough; the seat has seen more all the same.
    pub fn fetch<R: Wait>(
        &self,
        rt: &R,
        seat: &mut Seat<K>,
    ) -> Result<Option<Arc<Publication>>, NoMemory>
        requires { seat.old.site ≡ self.now.table.shared.table_id }
        ensures last { IfOk result (λ found. MatchOption found (last_published seat.new.seen ≡ None) (λ q. (p : Published) × (last_published seat.new.seen ≡ Some p) × StandsFor seat.new.seen.opening (records seat.new.seen) q.value p)) }
        ensures looks { Looks seat.old seat.new }
    {
        let low = seat.low;
        let book = self.take(rt, &mut seat.token, low);
        let found = last_of(&book);
        let entries = self.give(&mut seat.token, book);
        seat.entries = entries;
        found
    }

    /// Gives the book back. Its history begins with what the seat has seen, and has no more entries of the seat.
    ///
    /// # Errors
    /// [`Away`] where another seat has the turn; the site is then given up.
    pub fn close(self, seat: Seat<K>) -> Result<Book<K>, Away>
        requires { seat.site ≡ self.table.shared.table_id }
        ensures ok { IfOk result (λ book. IsSound K.rows K.faults book × StartsWith book.history seat.seen × (made_by seat.base seat.low book.history ≡ mine seat)) }
        ensures err { IfErr result (λ away. (away.turn ≢ 0) × (away.turn ≢ seat.low + 1)) }
    {
        let Site { table } = self;
        let Seat {
            low: _,
            high: _,
            entries: _,
            token,
        } = seat;
        let mut closed = table.close_with(token);
        let turn = closed.word(1);
        let held = closed.take(0);
        closed.free();
        if turn != 0 {
            return Err(Away { turn });
        }
        Ok(held.unwrap())
    }
}

/// A clone of the book's last publication.
fn last_of<K: Keeper>(book: &Book<K>) -> Result<Option<Arc<Publication>>, NoMemory>
    ensures { IfOk result (λ found. MatchOption found (last_published book.now.history ≡ None) (λ q. (p : Published) × (last_published book.now.history ≡ Some p) × StandsFor book.now.history.opening (records book.now.history) q.value p)) }
{
    match book.last() {
        Some(last) => match Arc::try_clone(last) {
            Ok(last) => Ok(Some(last)),
            Err(_) => Err(NoMemory),
        },
        None => Ok(None),
    }
}
