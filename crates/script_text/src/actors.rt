//! The actors of a script.

ghost use Rattle.std.specs.Prelude.{◌≡◌, ◌<◌, [], None, IfSome, length};
ghost use Rattle.trust_types.specs.NameLists.{number_of};
ghost use Rattle.script_text.specs.Actors.{numbered, numbered_by, actor_in};
ghost use Rattle.script_text.specs.inner.Reading.{TellsWith};

use crate::lines::{ActorNo, MOST_ACTORS};
use std::alloc::Global;
use std::marker::Model;
use text_lines::{LineFault, TextKind, fault_unless, name_in};
use trust_types::Name;

/// The actors that were named so far. Contracts see the list of their names, in the order of their first use.
#[derive(Drop)]
pub(crate) struct Actors {
    names: Vec<Name>,
}

impl Model for Actors {
    ghost use Rattle.std.specs.Prelude.{ℕ, List, ◌≤◌, vec_len};

    ghost Value = { List (List ℕ) };

    ghost view = { λ actors. actors.names.items };

    ghost invariant = { λ actors. vec_len actors.names ≤ 64 };
}

impl Actors {
    /// None was named yet. It takes no memory.
    pub fn new(alloc: Global) -> Actors
        ensures { result ≡ [] }
    {
        Actors {
            names: Vec::new(alloc),
        }
    }

    /// The number of the actor in an actor's place. It looks the name up among those so far, one after another.
    ///
    /// # Errors
    /// [`TextKind::BadName`] where the word is no name, [`TextKind::TooMany`] where it is a new one and there are [`MOST_ACTORS`]
    /// already, and [`LineFault::NoMemory`].
    pub fn actor_in(&mut self, word: &str) -> Result<ActorNo, LineFault>
        ensures { TellsWith self.new result (actor_in self.old word.now) }
    {
        let name = name_in(word.as_bytes())?;
        self.numbered(name)
    }

    /// The number of the actor of that name.
    fn numbered(&mut self, name: Name) -> Result<ActorNo, LineFault>
        ensures { TellsWith self.new result (numbered self.old name) }
    {
        match place_of(&self.names, &name) {
            Some(place) => Ok(ActorNo::after(place)),
            None => self.add(name),
        }
    }

    /// The number of a new actor.
    fn add(&mut self, name: Name) -> Result<ActorNo, LineFault>
        ensures { TellsWith self.new result (numbered_by None self.old name) }
    {
        let others = self.names.len();
        fault_unless(others < MOST_ACTORS as usize, TextKind::TooMany)?;
        self.names.push(name)?;
        Ok(ActorNo::after(others))
    }
}

/// The place of a name among these.
fn place_of(names: &[Name], name: &Name) -> Option<usize>
    ensures place { result ≡ number_of names.now name.now }
    ensures within { IfSome result (λ place. place < length names.now) }
{
    names.iter().position(|other| *other == *name)
}
