//! What the steps of a block work on.

ghost use Rattle.std.specs.Prelude.{◌≡◌, IfOk};

use frozen::Frozen;
use outside::MemKeeper;
use site_core::Book;
use site_history::{Act, Answer, FreezeFault, PublishFault};
use solver::solve_alone;
use std::alloc::{AllocError, Global};
use std::marker::Model;
use std::sync::Arc;
use std::sync::ledger::Ledger;
use trust_types::{NoMemory, Steps};

/// Whoever calls the book.
const CALLER: u64 = 1;

/// The book of a site, and the graph that was frozen of it last, with which nothing was done yet. Contracts see the history.
#[derive(Drop)]
pub(crate) struct Site {
    pub(crate) book: Book<MemKeeper>,
    frozen: Option<Arc<Frozen>>,
}

impl Model for Site {
    ghost use Rattle.std.specs.Prelude.{IfSome};
    ghost use Rattle.site_history.specs.Histories.{History};
    ghost use Rattle.site_cases.specs.Graphs.{IsPastGraph};

    ghost Value = { History };

    ghost view = { λ s. s.book.history };

    ghost invariant = { λ s. IfSome s.frozen (λ graph. IsPastGraph s.book.history graph.value) };
}

/// Why nothing is published.
#[derive(Drop)]
pub(crate) enum Refused {
    NothingFrozen,
    Freeze(FreezeFault),
    Publish(PublishFault),
    NoMemory,
}

impl From<FreezeFault> for Refused {
    fn from(fault: FreezeFault) -> Refused {
        Refused::Freeze(fault)
    }
}

impl From<PublishFault> for Refused {
    fn from(fault: PublishFault) -> Refused {
        Refused::Publish(fault)
    }
}

impl From<NoMemory> for Refused {
    fn from(_refusal: NoMemory) -> Refused {
        Refused::NoMemory
    }
}

impl From<AllocError> for Refused {
    fn from(_refusal: AllocError) -> Refused {
        Refused::NoMemory
    }
}

impl Site {
    ghost use Rattle.site_cases.specs.Graphs.{IsPastGraph};

    pub(crate) fn new(book: Book<MemKeeper>) -> Site {
        Site { book, frozen: None }
    }

    /// Answers an act. The moments are the history's places, in order.
    pub(crate) fn submit(&mut self, act: Act) -> Answer {
        let moment = self.book.length();
        self.book.submit(CALLER, act, moment)
    }

    /// The graph as it is now.
    fn graph<L: Ledger>(&mut self, steps: &mut Steps<L>) -> Result<Arc<Frozen>, Refused>
        ensures { IfOk result (λ graph. IsPastGraph self.new graph.value) }
    {
        Ok(self.book.freeze(CALLER, steps)?)
    }

    /// Publishes the rosters of a graph of this site. Gives the publication's number.
    fn publish_graph(&mut self, alloc: Global, graph: &Arc<Frozen>) -> Result<u32, Refused>
        requires { IsPastGraph self.old graph.now.value }
    {
        let candidate = solve_alone(alloc, graph)?;
        Ok(self.book.publish(CALLER, candidate)?)
    }

    /// Freezes the graph, and keeps it. Gives its revision.
    pub(crate) fn freeze<L: Ledger>(&mut self, steps: &mut Steps<L>) -> Result<u32, Refused> {
        let graph = self.graph(steps)?;
        let revision = graph.revision();
        self.frozen = Some(graph);
        Ok(revision)
    }

    /// Publishes the rosters of the graph that was frozen last.
    pub(crate) fn publish_frozen(&mut self, alloc: Global) -> Result<u32, Refused> {
        let Some(graph) = self.frozen.take() else {
            return Err(Refused::NothingFrozen);
        };
        self.publish_graph(alloc, &graph)
    }

    /// Freezes the graph and publishes its rosters at once.
    pub(crate) fn publish_now<L: Ledger>(
        &mut self,
        alloc: Global,
        steps: &mut Steps<L>,
    ) -> Result<u32, Refused> {
        let graph = self.graph(steps)?;
        self.publish_graph(alloc, &graph)
    }

    /// How many places, publications and revisions there are.
    pub(crate) fn counted(&self, alloc: Global) -> Result<String, NoMemory> {
        let places = self.book.length();
        let published = self.book.published();
        let revision = self.book.revision();
        Ok(format!(in alloc; "{places} places, {published} publications, revision {revision}")?)
    }
}
