//! The residual graph: what may still be moved through a split graph.

ghost use Rattle.std.specs.Prelude.{ℕ, ◌≡◌, ◌≢◌, ◌<◌, ◌≤◌, ◌+◌, ◌^◌, nat_lt, length, slice_index, IfOk, Some, None};
ghost use Rattle.trust_types.specs.declared.levels.Level.{Level};
ghost use Rattle.trust_types.specs.declared.accounts.Node.TheVariants.{Account};
ghost use Rattle.trust_types.specs.Levels.{IsGrade};
ghost use Rattle.trust_types.specs.Graph.{HasEdge};
ghost use Rattle.trust_types.specs.Capacity.{entry, AreCapacities, cap_by};
ghost use Rattle.frozen.specs.Revision.{Revision, certificates};
ghost use Rattle.split_flow.specs.Split.{SplitNode, InHalf, OutHalf, Supersink, IsNode, IsSplitGraph};
ghost use Rattle.split_flow.specs.Moved.{IsOneMoved};
ghost use Rattle.split_graph.specs.Numbers.{node_number, node_count};
ghost use Rattle.split_graph.specs.Arcs.{IsSameGraph, arc_count, first_of, head_of, tail_of, rest_of, between, move_one, LeadsTo};
ghost use Rattle.split_graph.specs.Network.{Fits, IsLaidFor, StandsFor, rows_of, given_count, IsTaker, arc_along, arc_to_supersink, units_on};
ghost use Rattle.split_graph.specs.inner.Back.{AreReadBefore};

use crate::arc_table::ArcTable;
use crate::split_arcs::{SplitArc, list_arcs};
use crate::split_nodes::{in_half, is_along_edge, out_half};
use frozen::Frozen;
use std::alloc::Global;
use std::marker::Model;
use std::snapshot::Snapshot;
use std::sync::ledger::Ledger;
use trust_types::{AccountNo, CertGraph, Level, NoMemory, Node, Steps};

/// What a look at an arc tells.
#[derive(Clone, Copy, Drop)]
pub struct ArcView {
    /// Whether a unit can be moved along it.
    pub passable: bool,
    /// The split node that it enters.
    pub head: u32,
}

/// What may still be moved along the arcs of Levien's split graph of a site at a level. Contracts see the room that was
/// reserved, the graph that is laid out and the level that was loaded, and the arcs with what rests on each. Split nodes are told by number, as
/// [`in_half`] and [`out_half`] give it.
#[derive(Drop)]
pub struct Residual {
    most_accounts: u32,
    most_certs: u32,
    /// Contracts alone see it; it has no bytes.
    graph: Option<Snapshot<Frozen>>,
    level: Option<Level>,
    accounts: u32,
    arcs: Vec<SplitArc>,
    table: ArcTable,
}

impl Model for Residual {
    ghost use Rattle.std.specs.Prelude.{vec_capacity, option_map};
    ghost use Rattle.split_graph.specs.Network.{Network};
    ghost use Rattle.split_graph.specs.inner.Held.{network, IsReserved};

    ghost Value = { Network };

    ghost view = { λ r. network (record { accounts = r.most_accounts; certs = r.most_certs }) (option_map (λ seen. seen.value) r.graph) r.level r.accounts r.table };

    ghost invariant = { λ r. IsReserved r.most_accounts r.most_certs r.table (vec_capacity r.arcs) };
}

impl Residual {
    /// Room for the split graphs of sites with at most so many accounts and certificates. All memory is taken here: about
    /// 112 bytes an account and 32 a certificate. No graph is laid out yet, and nothing can be moved.
    ///
    /// # Errors
    /// [`NoMemory`] where that memory can't be had.
    pub fn reserve(alloc: Global, accounts: u32, certs: u32) -> Result<Residual, NoMemory>
        ensures room { IfOk result (λ residual. residual.room ≡ record { accounts = accounts; certs = certs }) }
        ensures empty { IfOk result (λ residual. residual.graph ≡ None) }
        ensures level { IfOk result (λ residual. residual.level ≡ None) }
        ensures closed { IfOk result (λ residual. (u v : SplitNode) → between residual.arcs u v ≡ 0) }
    {
        let most_nodes = 2 * accounts as usize + 3;
        let most_arcs = 3 * accounts as usize + certs as usize + 1;
        Ok(Residual {
            most_accounts: accounts,
            most_certs: certs,
            graph: None,
            level: None,
            accounts: 0,
            arcs: Vec::with_capacity(alloc, most_arcs)?,
            table: ArcTable::reserve(alloc, most_nodes, most_arcs)?,
        })
    }

    /// Lays out the arcs of the split graph of a site, whatever the level: one is loaded on them next. What was loaded before is
    /// lost.
    ///
    /// It takes no memory, and time linear in accounts and certificates.
    pub fn lay_out(&mut self, frozen: &Frozen)
        requires { Fits frozen.now self.old.room }
        ensures room { self.new.room ≡ self.old.room }
        ensures laid { IsLaidFor frozen.now self.new }
        ensures level { self.new.level ≡ None }
    {
        self.graph = Some(Snapshot::of(frozen));
        self.level = None;
        self.accounts = frozen.accounts();
        list_arcs(frozen, &mut self.arcs);
        self.table.build(2 * self.accounts as usize + 3, &self.arcs);
    }

    /// Loads a level of the site whose arcs are laid out, where these are the capacities of its accounts there, by number. The arcs
    /// stay where they are, and no units are on them.
    ///
    /// It takes no memory, and time linear in accounts and certificates: a small part of what `lay_out` takes.
    pub fn load(&mut self, frozen: &Frozen, level: Level, caps_of: &[u32])
        requires laid { IsLaidFor frozen.now self.old }
        requires grade { IsGrade level }
        requires places { length caps_of.now ≡ (certificates frozen.now).accounts }
        requires capacities { AreCapacities (certificates frozen.now) level frozen.now.caps (cap_by (entry frozen.now.caps 0) caps_of.now) }
        ensures room { self.new.room ≡ self.old.room }
        ensures graph { self.new.graph ≡ Some frozen.now }
        ensures level { self.new.level ≡ Some level }
        ensures arcs { IsSameGraph self.old.arcs self.new.arcs }
        ensures split { IsSplitGraph (certificates frozen.now) level (cap_by (entry frozen.now.caps 0) caps_of.now) (between self.new.arcs) }
        ensures stands { StandsFor self.new }
    {
        self.level = Some(level);
        self.table.fill(frozen, level, frozen.caps().at(0), caps_of);
    }

    /// Moves one unit along an arc on which something rests. From then on one less may be moved along it, and one more back.
    pub fn push(&mut self, arc: u32)
        requires stands { StandsFor self.old }
        requires within { arc < arc_count self.old.arcs }
        requires some { 0 < rest_of self.old.arcs arc }
        ensures moved { self.new ≡ record self.old { arcs = move_one arc self.old.arcs } }
        ensures one { (u v : SplitNode) → LeadsTo self.old.arcs u v arc → IsOneMoved (between self.old.arcs) (between self.new.arcs) u v }
        ensures stands { StandsFor self.new }
    {
        self.table.push(arc);
    }

    /// The first arc of a split node: those that leave node v are the ones from `first(v)` to just before `first(v + 1)`. For the
    /// number behind the last node, 2 * accounts + 3, it is the number of arcs.
    pub fn first(&self, node: u32) -> u32
        requires stands { StandsFor self.now }
        requires node { node ≤ node_count self.now.arcs.accounts }
        ensures { result ≡ first_of self.now.arcs node }
    {
        self.table.first(node)
    }

    /// Looks at an arc, which is one step.
    pub fn look<L: Ledger>(&self, arc: u32, steps: &mut Steps<L>) -> ArcView
        requires stands { StandsFor self.now }
        requires arc { arc < arc_count self.now.arcs }
        ensures passable { result.passable ≡ nat_lt 0 (rest_of self.now.arcs arc) }
        ensures head { result.head ≡ head_of self.now.arcs arc }
        ensures step { steps.new ≡ steps.old + 1 }
    {
        steps.tick();
        ArcView {
            passable: self.table.rest(arc) > 0,
            head: self.table.head(arc),
        }
    }

    /// The units on the arc that leads back to an arc of this node, if that one is along an edge; else 0. They are what may be moved along this
    /// arc: mostly nothing, which spares a look at where it leads.
    fn units_back(&self, node: u32, arc: u32) -> u32
        requires stands { StandsFor self.now }
        requires arc { arc < arc_count self.now.arcs }
        requires tail { tail_of self.now.arcs arc ≡ node }
        ensures { (u v : SplitNode) → LeadsTo self.now.arcs u v arc → result ≡ units_on (between self.now.arcs) v u }
    {
        let units = self.table.rest(arc);
        if units == 0 {
            return 0;
        }
        if is_along_edge(self.table.head(arc), node) {
            return units;
        }
        0
    }

    /// Writes the units on the arc that leads back to an arc of this node into its place, which has 0.
    fn write_back(&self, node: u32, arc: u32, units: &mut [u32])
        requires stands { StandsFor self.now }
        requires arc { arc < arc_count self.now.arcs }
        requires tail { tail_of self.now.arcs arc ≡ node }
        requires places { arc_count self.now.arcs ≤ length units.old }
        requires read { AreReadBefore self.now.arcs arc units.old }
        ensures { AreReadBefore self.now.arcs (arc + 1) units.new }
    {
        let back = self.units_back(node, arc);
        if back != 0 {
            units[self.table.twin(arc) as usize] = back;
        }
    }

    /// Writes the units on the edges to an account into the places of their arcs: the arcs that lead back stand in a row, after those through
    /// the account and to the supersink.
    fn write_row(&self, account: AccountNo, units: &mut [u32])
        requires stands { StandsFor self.now }
        requires account { account < self.now.arcs.accounts }
        requires places { arc_count self.now.arcs ≤ length units.old }
        requires read { AreReadBefore self.now.arcs (first_of self.now.arcs (node_number (InHalf (Account account)))) units.old }
        ensures { AreReadBefore self.now.arcs (first_of self.now.arcs (node_number (InHalf (Account (account + 1))))) units.new }
    {
        let node = in_half(&Node::Account(account));
        let from = self.table.first(node) + 2;
        let to = self.table.first(node + 1);
        for arc in from..to {
            self.write_back(node, arc, units);
        }
    }

    /// Writes 0 into the place of each arc, which is a step.
    fn clear<L: Ledger>(&self, units: &mut [u32], steps: &mut Steps<L>)
        requires stands { StandsFor self.now }
        requires places { arc_count self.now.arcs ≤ length units.old }
        ensures none { (arc : ℕ) → arc < arc_count self.now.arcs → slice_index units.new arc ≡ 0 }
        ensures steps { steps.new ≡ steps.old + arc_count self.now.arcs }
    {
        for arc in 0..self.first(2 * self.accounts + 3) {
            units[arc as usize] = 0;
            steps.tick();
        }
    }

    /// Writes the units on each arc along a certificate or from the root to a seed into the place of that arc, and 0 into those of all
    /// others. It is as many steps as there are arcs.
    pub fn unload<L: Ledger>(&self, units: &mut [u32], steps: &mut Steps<L>)
        requires stands { StandsFor self.now }
        requires places { arc_count self.now.arcs ≤ length units.old }
        ensures units { (u v : SplitNode) (arc : ℕ) → LeadsTo self.now.arcs u v arc → slice_index units.new arc ≡ units_on (between self.now.arcs) u v }
        ensures steps { steps.new ≡ steps.old + arc_count self.now.arcs }
    {
        self.clear(units, steps);
        for account in 0..self.accounts {
            self.write_row(AccountNo(account), units);
        }
    }

    /// The arc of the i-th certificate that an account gives, or for the root that of the i-th seed, counted from 0. Nothing
    /// moves along the arc of a certificate below the level that was loaded.
    pub fn arc_of(&self, from: Node, i: u32) -> u32
        requires stands { StandsFor self.now }
        requires node { IsNode self.now.arcs.accounts from }
        requires within { i < given_count (rows_of self.now) from }
        ensures place { result ≡ arc_along self.now.arcs from i }
        ensures arc { result < arc_count self.now.arcs }
        ensures along { (b : ℕ) → IsTaker (rows_of self.now) from i b → LeadsTo self.now.arcs (OutHalf from) (InHalf (Account b)) result }
        ensures closed { (f : Revision) (level : Level) (b : ℕ) → self.now.graph ≡ Some f → self.now.level ≡ Some level → IsTaker f.parts from i b → ¬ (HasEdge (certificates f) level from b) → rest_of self.now.arcs result ≡ 0 }
    {
        self.table.first(out_half(&from)) + (i + 1)
    }

    /// The arc from an account to the supersink, along which one unit may be moved.
    pub fn end_arc(&self, account: AccountNo) -> u32
        requires stands { StandsFor self.now }
        requires account { account < self.now.arcs.accounts }
        ensures place { result ≡ arc_to_supersink self.now.arcs account }
        ensures ends { LeadsTo self.now.arcs (InHalf (Account account)) Supersink result }
    {
        self.table.first(in_half(&Node::Account(account))) + 1
    }
}
