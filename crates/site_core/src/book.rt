//! The book of a site.

ghost use Rattle.std.specs.Prelude.{◌≡◌, ◌↔◌, ◌<◌, ◌≤◌, ◌+◌, ◌*◌, Some, None, true, IfOk, IfErr, OnOk, OnErr, IsOk, IsSome, IsTrue, MatchOption, length, slice_get};
ghost use Rattle.trust_types.specs.Kept.{IsMoment, accounts, revision};
ghost use Rattle.trust_types.specs.NameLists.{number_of};
ghost use Rattle.frozen.specs.Sites.{parts_for};
ghost use Rattle.outside.specs.Causes.{HasCause};
ghost use Rattle.site_history.specs.Answers.{Refuses, IsReply, entry_of, FreezeRefuses, PublishRefuses};
ghost use Rattle.site_history.specs.Histories.{Published, places, records, publications, last_published, graph_records, published_of, with_entry, is_kept, record_of, author_of, Freeze, Publish};
ghost use Rattle.site_history.specs.Held.{level_of};
ghost use Rattle.site_history.specs.Legal.{StandsFor, IsFrozenOf, Suits};
ghost use Rattle.site_history.specs.Replies.{judge};
ghost use Rattle.site_history.specs.Sites.{site_of};
ghost use Rattle.site_history.specs.Texts.{texts, texts_in};
ghost use Rattle.sessions.specs.Sessions.{who};
ghost use Rattle.site_history.specs.Answers.{is_refusal};
ghost use Rattle.site_history.specs.Live.{live};
ghost use Rattle.site_history.specs.declared.replies.Reply.TheVariants.{LoggedIn, LoggedOut};
ghost use Rattle.site_history.specs.declared.replies.Refusal.TheVariants.{NoMemory as OutOfMemory};
ghost use Rattle.site_state.specs.Weighed.{token_of, author_token};
ghost use Rattle.site_state.specs.inner.Parts.{CanAdd};
ghost use Rattle.site_core.specs.Admission.{IsAdmitted};
ghost use Rattle.site_core.specs.Books.{IsSound, is_fault_answer};

use crate::sizes::{session_token, texts_in};
use frozen::Frozen;
use outside::{KeepFault, Keeper};
use roster_form::{Candidate, Publication};
use sessions::Token;
use site_history::{Act, Answer, FreezeFault, PublishFault, Refusal, Reply};
use site_records::row_of;
use site_state::{Judged, State};
use std::alloc::Global;
use std::marker::{Brand, Model};
use std::snapshot::Snapshot;
use std::sync::Arc;
use std::sync::ledger::{Blank, Ledger};
use trust_types::{AccountNo, Caps, Level, Name, Record, Steps};

/// The book of a site over a keeper of its rows. Contracts see its history, the keeper as it was found when the book was opened, and the keeper now.
///
/// Each act has the one reply that the history gives it. An accepted record is kept before it counts. The history is legal at all times.
#[derive(Drop)]
pub struct Book<K: Keeper> {
    pub(crate) state: State,
    pub(crate) found: Snapshot<K>,
    pub(crate) keeper: K,
    pub(crate) alloc: Global,
}

impl<K: Keeper> Model for Book<K> {
    ghost use Rattle.site_core.specs.Books.{Kept, IsSound};

    ghost Value = { Kept K };

    ghost view = { λ b. record { history = b.state.history; found = b.found.value; keeper = b.keeper } };

    ghost invariant = { λ b. IsSound K.rows K.faults (record { history = b.state.history; found = b.found.value; keeper = b.keeper }) };
}

impl<K: Keeper> Book<K> {
    /// How many places the history has: one for each opened record and each entry.
    pub fn length(&self) -> u64
        ensures value { result ≡ places self.now.history }
        ensures sound { IsSound K.rows K.faults self.now }
    {
        self.state.places()
    }

    /// How many publications there were.
    pub fn published(&self) -> u32
        ensures { result ≡ length (publications self.now.history) }
    {
        self.state.published()
    }

    /// The keeper.
    pub fn keeper(&self) -> &K
        ensures { result.now ≡ self.now.keeper }
    {
        &self.keeper
    }

    /// The table with which the site began.
    pub fn opening(&self) -> &Caps
        ensures { result.now ≡ self.now.history.opening }
    {
        self.state.opening()
    }

    /// The number of the revision.
    pub fn revision(&self) -> u32
        ensures { result ≡ revision (records self.now.history) }
    {
        self.state.revision()
    }

    /// The account of that name; `None` exactly where no account has it.
    pub fn find(&self, name: &Name) -> Option<AccountNo>
        ensures { result ≡ number_of (accounts (records self.now.history)) name.now }
    {
        self.state.find(name)
    }

    /// The level that an account holds by the last publication; Observer where there is none. It takes at most six binary searches.
    pub fn level_of(&self, account: AccountNo) -> Level
        ensures { result ≡ level_of self.now.history account }
    {
        self.state.level_of(account)
    }

    /// The n-th of the records that changed the graph or the table, counted from 0, with its secret as it is kept.
    pub fn graph_record(&self, n: u32) -> &Record
        requires { n < revision (records self.now.history) }
        ensures { Some result.now ≡ slice_get (graph_records (records self.now.history)) n }
    {
        self.state.graph_record(n)
    }

    /// The last publication, with the flow and the cut that prove whom each of its rosters has; `None` exactly where there is none.
    pub fn last(&self) -> Option<&Arc<Publication>>
        ensures { MatchOption result (last_published self.now.history ≡ None) (λ q. (p : Published) × (last_published self.now.history ≡ Some p) × StandsFor self.now.history.opening (records self.now.history) q.now.value p) }
    {
        self.state.last()
    }

    /// Answers an act of a caller at a moment. An accepted act that adds a record has its row kept first. A refused act changes nothing but the
    /// history, and where the keeper fails, the history has its fault alone.
    ///
    /// # Errors
    /// The first that applies: [`Refusal::HistoryFull`], [`Refusal::TextFull`], [`Refusal::NoMemory`], which comes only of an act that would add a
    /// record or a session. The history is then as it was.
    pub fn submit(&mut self, caller: u64, act: Act, moment: u64) -> Answer
        requires { IsMoment moment }
        // The reply is the one that the history gives, and its entry is added.
        ensures reply { IfOk result (λ reply. IsReply self.old.history act reply) }
        ensures entry { IfOk result (λ reply. self.new.history ≡ with_entry self.old.history (entry_of caller act reply moment)) }
        // A post is admitted exactly where the level that its author holds in the last publication meets the policy.
        ensures admitted { IfOk result (λ reply. IsAdmitted self.old.history act reply) }

        // A refusal has its cause, and adds nothing.
        ensures refused { IfErr result (λ refusal. Refuses self.old.history act refusal) }
        ensures same { OnErr result (self.new.history ≡ self.old.history) }

        // A fault of the keeper has its cause in its count.
        ensures cause { HasCause (K.faults self.old.keeper) (K.faults self.new.keeper) (is_fault_answer result) }
        ensures found { self.new.found ≡ self.old.found }
        ensures sound { IsSound K.rows K.faults self.new }
    {
        let answer = self.answer::<Brand>(caller, act, moment, Blank::new(1));
        let _ = self.length();
        answer
    }

    fn answer<L: Ledger>(&mut self, caller: u64, act: Act, moment: u64, blank: Blank) -> Answer
        requires moment { IsMoment moment }
        requires name { blank.name ≡ L.name }
        requires parts { blank.parts ≡ L.parts }
        requires some { 0 < blank.parts }
        ensures reply { IfOk result (λ reply. IsReply self.old.history act reply) }
        ensures entry { IfOk result (λ reply. self.new.history ≡ with_entry self.old.history (entry_of caller act reply moment)) }
        ensures refused { IfErr result (λ refusal. Refuses self.old.history act refusal) }
        ensures same { OnErr result (self.new.history ≡ self.old.history) }
        ensures cause { HasCause (K.faults self.old.keeper) (K.faults self.new.keeper) (is_fault_answer result) }
        ensures found { self.new.found ≡ self.old.found }
    {
        if self.state.places() >= 4_000_000 {
            return Err(Refusal::HistoryFull);
        }
        let total = self.state.texts();
        let bytes = texts_in(&act);
        if bytes > 536_870_912 - total {
            return Err(Refusal::TextFull(total));
        }
        let mut steps = Steps::<L>::new(blank);
        let said = Snapshot::of(&act);
        let token = session_token(&act);
        match self.state.weigh(act, moment) {
            Judged::Refused(reply) => self.refuse(caller, said, reply, moment, bytes),
            Judged::Kept(entry, reply) => {
                self.keep(caller, said, entry, reply, moment, bytes, &mut steps)
            }
            Judged::LogsIn(account, token) => {
                self.log_in(caller, said, account, token, moment, bytes)
            }
            Judged::LogsOut => self.log_out(caller, said, token, moment, bytes),
        }
    }

    /// Adds the entry of an act that was refused.
    fn refuse(
        &mut self,
        caller: u64,
        act: Snapshot<Act>,
        reply: Reply,
        moment: u64,
        bytes: u64,
    ) -> Answer
        requires reply { reply ≡ judge self.old.history act.value }
        requires refusal { is_refusal reply ≡ true }
        requires moment { IsMoment moment }
        requires places { places self.old.history < 4_000_000 }
        requires bytes { bytes ≡ texts_in act.value }
        requires texts { texts self.old.history + bytes ≤ 536_870_912 }
        ensures reply { IfOk result (λ reply. IsReply self.old.history act.value reply) }
        ensures entry { IfOk result (λ reply. self.new.history ≡ with_entry self.old.history (entry_of caller act.value reply moment)) }
        ensures answered { IsOk result }
        ensures cause { HasCause (K.faults self.old.keeper) (K.faults self.new.keeper) (is_fault_answer result) }
        ensures found { self.new.found ≡ self.old.found }
    {
        let given = reply;
        self.state.refuse(caller, act, reply, moment, bytes);
        let _ = self.state.places();
        Ok(given)
    }

    /// Keeps the row of an accepted record, and then adds the record and the entry of its act; or the keeper's fault.
    fn keep<L: Ledger>(
        &mut self,
        caller: u64,
        act: Snapshot<Act>,
        entry: Record,
        reply: Reply,
        moment: u64,
        bytes: u64,
        steps: &mut Steps<L>,
    ) -> Answer
        requires reply { reply ≡ judge self.old.history act.value }
        requires kept { is_kept reply ≡ true }
        requires entry { record_of (accounts (records self.old.history)) (author_of (accounts (records self.old.history)) act.value.author) moment act.value.command ≡ Some entry }
        requires can { CanAdd (site_of self.old.history).certs (site_of self.old.history).posts entry }
        requires moment { IsMoment moment }
        requires places { places self.old.history < 4_000_000 }
        requires bytes { bytes ≡ texts_in act.value }
        requires texts { texts self.old.history + bytes ≤ 536_870_912 }
        ensures reply { IfOk result (λ reply. IsReply self.old.history act.value reply) }
        ensures entry { IfOk result (λ reply. self.new.history ≡ with_entry self.old.history (entry_of caller act.value reply moment)) }
        ensures refused { IfErr result (λ refusal. refusal ≡ OutOfMemory) }
        ensures same { OnErr result (self.new.history ≡ self.old.history) }
        ensures cause { HasCause (K.faults self.old.keeper) (K.faults self.new.keeper) (is_fault_answer result) }
        ensures found { self.new.found ≡ self.old.found }
    {
        let Ok(row) = row_of(self.alloc, &entry) else {
            return Err(Refusal::NoMemory);
        };
        if self.state.reserve(&entry, steps).is_err() {
            return Err(Refusal::NoMemory);
        }
        match self.keeper.append(&row) {
            Ok(()) => {
                let given = reply;
                self.state
                    .keep(caller, act, entry, reply, moment, bytes, steps);
                let _ = self.state.places();
                Ok(given)
            }
            Err(KeepFault::Failed) => {
                self.state.fail(caller);
                let _ = self.state.places();
                Ok(Reply::Fault)
            }
            Err(KeepFault::NoMemory) => Err(Refusal::NoMemory),
        }
    }

    fn log_in(
        &mut self,
        caller: u64,
        act: Snapshot<Act>,
        account: AccountNo,
        token: Token,
        moment: u64,
        bytes: u64,
    ) -> Answer
        requires judged { judge self.old.history act.value ≡ LoggedIn account }
        requires token { token_of act.value.command ≡ Some token }
        requires free { who (live self.old.history) token ≡ None }
        requires moment { IsMoment moment }
        requires places { places self.old.history < 4_000_000 }
        requires bytes { bytes ≡ texts_in act.value }
        requires texts { texts self.old.history + bytes ≤ 536_870_912 }
        ensures reply { IfOk result (λ reply. IsReply self.old.history act.value reply) }
        ensures entry { IfOk result (λ reply. self.new.history ≡ with_entry self.old.history (entry_of caller act.value reply moment)) }
        ensures refused { IfErr result (λ refusal. refusal ≡ OutOfMemory) }
        ensures same { OnErr result (self.new.history ≡ self.old.history) }
        ensures cause { HasCause (K.faults self.old.keeper) (K.faults self.new.keeper) (is_fault_answer result) }
        ensures found { self.new.found ≡ self.old.found }
    {
        let Ok(()) = self
            .state
            .log_in(caller, act, account, token, moment, bytes)
        else {
            return Err(Refusal::NoMemory);
        };
        let _ = self.state.places();
        Ok(Reply::LoggedIn(account))
    }

    fn log_out(
        &mut self,
        caller: u64,
        act: Snapshot<Act>,
        token: Option<Token>,
        moment: u64,
        bytes: u64,
    ) -> Answer
        requires judged { judge self.old.history act.value ≡ LoggedOut }
        requires token { token ≡ author_token act.value.author }
        requires some { IsSome token }
        requires moment { IsMoment moment }
        requires places { places self.old.history < 4_000_000 }
        requires bytes { bytes ≡ texts_in act.value }
        requires texts { texts self.old.history + bytes ≤ 536_870_912 }
        ensures reply { IfOk result (λ reply. IsReply self.old.history act.value reply) }
        ensures entry { IfOk result (λ reply. self.new.history ≡ with_entry self.old.history (entry_of caller act.value reply moment)) }
        ensures answered { IsOk result }
        ensures cause { HasCause (K.faults self.old.keeper) (K.faults self.new.keeper) (is_fault_answer result) }
        ensures found { self.new.found ≡ self.old.found }
    {
        match token {
            Some(token) => {
                self.state.log_out(caller, act, token, moment, bytes);
                let _ = self.state.places();
                Ok(Reply::LoggedOut)
            }
            None => unreachable!(),
        }
    }

    /// The graph of the site as it is now, of which a worker finds the rosters. It copies no certificate: it takes at most two steps a block of 64
    /// accounts and one more, whatever it answers.
    ///
    /// # Errors
    /// The first that applies: [`FreezeFault::Same`] exactly where the last publication is of the present revision, [`FreezeFault::HistoryFull`],
    /// [`FreezeFault::NoMemory`]. The history is then as it was.
    pub fn freeze<L: Ledger>(
        &mut self,
        caller: u64,
        steps: &mut Steps<L>,
    ) -> Result<Arc<Frozen>, FreezeFault>
        ensures graph { IfOk result (λ f. IsFrozenOf self.old.history.opening (records self.old.history) f.value) }
        ensures entry { OnOk result (self.new.history ≡ with_entry self.old.history (Freeze caller (revision (records self.old.history)))) }
        ensures refused { IfErr result (λ fault. FreezeRefuses self.old.history fault) }
        ensures same { OnErr result (self.new.history ≡ self.old.history) }
        ensures keeper { self.new.keeper ≡ self.old.keeper }
        ensures found { self.new.found ≡ self.old.found }
        ensures steps { steps.new ≤ steps.old + (2 * parts_for (length (accounts (records self.old.history))) + 1) }
        ensures sound { IsSound K.rows K.faults self.new }
    {
        let frozen = self.frozen(caller, steps);
        let _ = self.length();
        frozen
    }

    fn frozen<L: Ledger>(
        &mut self,
        caller: u64,
        steps: &mut Steps<L>,
    ) -> Result<Arc<Frozen>, FreezeFault>
        ensures graph { IfOk result (λ f. IsFrozenOf self.old.history.opening (records self.old.history) f.value) }
        ensures entry { OnOk result (self.new.history ≡ with_entry self.old.history (Freeze caller (revision (records self.old.history)))) }
        ensures refused { IfErr result (λ fault. FreezeRefuses self.old.history fault) }
        ensures same { OnErr result (self.new.history ≡ self.old.history) }
        ensures keeper { self.new.keeper ≡ self.old.keeper }
        ensures found { self.new.found ≡ self.old.found }
        ensures steps { steps.new ≤ steps.old + (2 * parts_for (length (accounts (records self.old.history))) + 1) }
    {
        let revision = self.state.revision();
        if is_last(self.state.last_revision(), revision) {
            return Err(FreezeFault::Same(revision));
        }
        if self.state.places() >= 4_000_000 {
            return Err(FreezeFault::HistoryFull);
        }
        let Ok(graph) = self.state.freeze(caller, steps) else {
            return Err(FreezeFault::NoMemory);
        };
        let _ = self.state.places();
        Ok(graph)
    }

    /// Publishes a candidate over the graph of this book's records up to its revision, and answers the publication's number, counted from 1.
    ///
    /// # Errors
    /// The first that applies: [`PublishFault::Stale`] exactly where the last publication's revision isn't below the candidate's,
    /// [`PublishFault::PublicationsFull`], [`PublishFault::HistoryFull`], [`PublishFault::NoMemory`]. The candidate is then dropped, and the history
    /// is as it was.
    pub fn publish(&mut self, caller: u64, candidate: Candidate) -> Result<u32, PublishFault>
        requires { Suits self.old.history.opening (records self.old.history) candidate }
        ensures number { IfOk result (λ n. n ≡ length (publications self.old.history) + 1) }
        ensures entry { IfOk result (λ n. self.new.history ≡ with_entry self.old.history (Publish caller (published_of n candidate))) }
        ensures refused { IfErr result (λ fault. PublishRefuses self.old.history candidate.graph.number fault) }
        ensures same { OnErr result (self.new.history ≡ self.old.history) }
        ensures keeper { self.new.keeper ≡ self.old.keeper }
        ensures found { self.new.found ≡ self.old.found }
        ensures sound { IsSound K.rows K.faults self.new }
    {
        let published = self.publish_newer(caller, candidate);
        let _ = self.length();
        published
    }

    fn publish_newer(&mut self, caller: u64, candidate: Candidate) -> Result<u32, PublishFault>
        requires { Suits self.old.history.opening (records self.old.history) candidate }
        ensures number { IfOk result (λ n. n ≡ length (publications self.old.history) + 1) }
        ensures entry { IfOk result (λ n. self.new.history ≡ with_entry self.old.history (Publish caller (published_of n candidate))) }
        ensures refused { IfErr result (λ fault. PublishRefuses self.old.history candidate.graph.number fault) }
        ensures same { OnErr result (self.new.history ≡ self.old.history) }
        ensures keeper { self.new.keeper ≡ self.old.keeper }
        ensures found { self.new.found ≡ self.old.found }
    {
        let revision = candidate.frozen().revision();
        if let Some(last) = self.state.last_revision() {
            if revision <= last {
                return Err(PublishFault::Stale(last));
            }
        }
        if self.state.published() >= 100_000 {
            return Err(PublishFault::PublicationsFull);
        }
        if self.state.places() >= 4_000_000 {
            return Err(PublishFault::HistoryFull);
        }
        let Ok(number) = self.state.publish(self.alloc, caller, candidate) else {
            return Err(PublishFault::NoMemory);
        };
        let _ = self.state.places();
        Ok(number)
    }
}

/// Whether the last published revision is this one.
fn is_last(last: Option<u32>, revision: u32) -> bool
    ensures { IsTrue result ↔ (last ≡ Some revision) }
{
    match last {
        Some(last) => last == revision,
        None => false,
    }
}
