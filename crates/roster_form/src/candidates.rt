//! Rosters of one frozen graph, for all grades of its table.

ghost use Rattle.std.specs.Prelude.{◌≡◌, ◌≤◌, ◌↔◌, IsSome, IsTrue, IfSome, find, map, option_map, slice_get};
ghost use Rattle.std.specs.Option.{option_copied};
ghost use Rattle.trust_types.specs.Levels.{rank};
ghost use Rattle.trust_types.specs.Tables.{has_grade};
ghost use Rattle.roster_form.specs.LevelRosters.{lists_of};
ghost use Rattle.roster_form.specs.Candidates.{lists_at, accepts, IsSound, AreSound, AreRostersFor, held_level};

use crate::level_rosters::LevelRoster;
use frozen::Frozen;
use std::marker::Model;
use std::sync::Arc;
use trust_types::{AccountNo, Level};

/// The rosters of all grades of a frozen graph's table, each proven over that graph.
#[derive(Drop)]
pub struct Candidate {
    frozen: Arc<Frozen>,
    /// Lowest grade first.
    rosters: Vec<LevelRoster>,
}

impl Model for Candidate {
    ghost use Rattle.std.specs.Prelude.{map};
    ghost use Rattle.roster_form.specs.LevelRosters.{lists_of};
    ghost use Rattle.roster_form.specs.Candidates.{Rosters, AreRostersFor};

    ghost Value = { Rosters };

    ghost view = { λ c. record { graph = c.frozen.value; grades = map lists_of c.rosters.items } };

    ghost invariant = { λ c. AreRostersFor c.frozen.value c.rosters.items };
}

impl Candidate {
    /// The candidate of a roster for each grade of a graph's table, lowest first, each proven at its level. No set of accounts
    /// without a seed has more in a roster than its bound. It takes no memory.
    pub fn of(frozen: Arc<Frozen>, rosters: Vec<LevelRoster>) -> Candidate
        requires { AreRostersFor frozen.value rosters.items }
        ensures value { result ≡ record { graph = frozen.value; grades = map lists_of rosters.items } }
        ensures sound { AreSound result }
    {
        Candidate { frozen, rosters }
    }

    /// The graph over which the rosters are proven.
    pub fn frozen(&self) -> &Arc<Frozen>
        ensures { result.now.value ≡ self.now.graph }
    {
        &self.frozen
    }

    /// The roster of a grade; `None` exactly for Observer and for a level that the graph's table hasn't. Its lists prove whom it
    /// has, and the attack bound holds of it.
    pub fn roster(&self, level: Level) -> Option<&LevelRoster>
        ensures lists { option_map (λ r. lists_of r.now) result ≡ lists_at self.now level }
        ensures grades { IsSome result ↔ IsTrue (has_grade self.now.graph.caps level) }
        ensures level { IfSome result (λ r. r.now.level ≡ level) }
        ensures sound { IfSome result (λ r. IsSound self.now.graph level (lists_of r.now)) }
    {
        let rank = level.rank();
        if rank == 0 {
            return None;
        }
        roster_at(&self.rosters, rank as usize - 1)
    }

    /// Whether the roster of a level has an account.
    fn accepts(&self, account: AccountNo, level: Level) -> bool
        ensures { result ≡ accepts self.now account level }
    {
        match self.roster(level) {
            Some(roster) => roster.has(account),
            None => false,
        }
    }

    /// The level that an account holds: the highest whose roster has it, Observer where none has. It takes no memory, and at
    /// most six binary searches.
    pub fn level_of(&self, account: AccountNo) -> Level
        ensures value { result ≡ held_level self.now account }
        ensures highest { (level : Level) → IsTrue (accepts self.now account level) → rank level ≤ rank result }
    {
        self.first_with(account, &Level::GRADES_DOWN)
            .unwrap_or(Level::Observer)
    }

    /// The first of these levels whose roster has an account.
    fn first_with(&self, account: AccountNo, levels: &[Level]) -> Option<Level>
        ensures { result ≡ find (accepts self.now account) levels.now }
    {
        levels
            .iter()
            .copied()
            .find(|level| self.accepts(account, *level))
    }
}

/// The roster at a place of a list.
fn roster_at(rosters: &[LevelRoster], place: usize) -> Option<&LevelRoster>
    ensures { option_copied result ≡ slice_get rosters.now place }
{
    rosters.get(place)
}
