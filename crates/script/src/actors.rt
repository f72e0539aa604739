//! What the actors of a script have.

ghost use Rattle.std.specs.Prelude.{◌≡◌, ◌+◌, ◌<◌, Some, None, IfOk, OnErr, replicate};
ghost use Rattle.script.specs.Stages.{nothing_held, held_by, with_kept, without_candidate};
ghost use Rattle.script.specs.inner.Ready.{Finds, HasFound};

use frozen::Frozen;
use roster_form::Candidate;
use script_text::{ActorNo, MOST_ACTORS};
use solver::solve_alone;
use std::alloc::Global;
use std::marker::Model;
use std::sync::Arc;
use trust_types::NoMemory;

/// An actor: the graph that it keeps, and the candidate that it has.
#[derive(Drop)]
pub(crate) struct Actor {
    kept: Option<Arc<Frozen>>,
    candidate: Option<Candidate>,
}

impl Model for Actor {
    ghost use Rattle.std.specs.Prelude.{option_map};
    ghost use Rattle.script.specs.Stages.{Holdings};

    ghost Value = { Holdings };

    ghost view = { λ actor. record { kept = option_map (λ graph. graph.value) actor.kept; candidate = actor.candidate } };
}

impl Actor {
    /// One that has nothing.
    fn new() -> Actor
        ensures { result ≡ nothing_held }
    {
        Actor {
            kept: None,
            candidate: None,
        }
    }

    fn keep(&mut self, graph: Arc<Frozen>)
        ensures { self.new ≡ record self.old { kept = Some graph.value } }
    {
        self.kept = Some(graph);
    }

    fn take(&mut self) -> Option<Candidate>
        ensures candidate { result ≡ self.old.candidate }
        ensures taken { self.new ≡ record self.old { candidate = None } }
    {
        self.candidate.take()
    }

    fn solve(&mut self, alloc: Global) -> Result<Option<u32>, NoMemory>
        ensures found { IfOk result (λ revision. Finds self.old revision self.new) }
        ensures same { OnErr result (self.new ≡ self.old) }
    {
        let Some(graph) = &self.kept else {
            return Ok(None);
        };
        let revision = graph.revision();
        let candidate = solve_alone(alloc, graph)?;
        self.candidate = Some(candidate);
        Ok(Some(revision))
    }
}

/// The actors of a script. Contracts see what each has, in the order of their numbers.
#[derive(Drop)]
pub(crate) struct Actors {
    list: Vec<Actor>,
}

impl Model for Actors {
    ghost use Rattle.std.specs.Prelude.{◌≡◌, List, vec_len};
    ghost use Rattle.script.specs.Stages.{Holdings};

    ghost Value = { List Holdings };

    ghost view = { λ actors. actors.list.items };

    ghost invariant = { λ actors. vec_len actors.list ≡ 64 };
}

/// The place of an actor in a list of all.
fn place_of(actor: ActorNo) -> usize
    ensures place { result + 1 ≡ actor }
    ensures within { result < 64 }
{
    actor.number() as usize - 1
}

impl Actors {
    /// As many as there may be, of which none has anything. It takes memory for all of them.
    pub(crate) fn new(alloc: Global) -> Result<Actors, NoMemory>
        ensures { IfOk result (λ actors. actors ≡ replicate 64 nothing_held) }
    {
        let mut list = Vec::with_capacity(alloc, MOST_ACTORS as usize)?;
        for _added in 0..MOST_ACTORS {
            list.push_reserved(Actor::new());
        }
        Ok(Actors { list })
    }

    /// The actor keeps a graph, in place of an earlier one.
    pub(crate) fn keep(&mut self, actor: ActorNo, graph: Arc<Frozen>)
        ensures { self.new ≡ with_kept self.old actor graph.value }
    {
        let own = &mut self.list[place_of(actor)];
        own.keep(graph);
    }

    /// Takes the actor's candidate from it.
    pub(crate) fn take(&mut self, actor: ActorNo) -> Option<Candidate>
        ensures candidate { result ≡ (held_by self.old actor).candidate }
        ensures taken { self.new ≡ without_candidate self.old actor }
    {
        let own = &mut self.list[place_of(actor)];
        own.take()
    }

    /// Finds the rosters of the graph that the actor keeps, which are its candidate from here on; `None` exactly where it keeps none. Gives the graph's
    /// revision. Where memory runs out, the actor has what it had.
    pub(crate) fn solve(&mut self, alloc: Global, actor: ActorNo) -> Result<Option<u32>, NoMemory>
        ensures found { IfOk result (λ revision. HasFound self.old actor revision self.new) }
        ensures same { OnErr result (self.new ≡ self.old) }
    {
        let own = &mut self.list[place_of(actor)];
        own.solve(alloc)
    }
}
