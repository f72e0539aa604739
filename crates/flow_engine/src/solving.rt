//! The greatest flow of a site at a level.

ghost use Rattle.std.specs.Prelude.{ℕ, ◌≡◌, ◌<◌, ◌≤◌, IfOk, length, Some, None};
ghost use Rattle.trust_types.specs.declared.accounts.Node.{Node};
ghost use Rattle.trust_types.specs.declared.accounts.Node.TheVariants.{Root, Account};
ghost use Rattle.trust_types.specs.declared.flows.Side.TheVariants.{Outside};
ghost use Rattle.trust_types.specs.Levels.{IsGrade};
ghost use Rattle.trust_types.specs.Capacity.{entry, AreCapacities, cap_by};
ghost use Rattle.trust_types.specs.Flow.{is_served};
ghost use Rattle.frozen.specs.Sites.{accounts, degree, taker};
ghost use Rattle.frozen.specs.Revision.{certificates};
ghost use Rattle.split_flow.specs.Split.{IsNode};
ghost use Rattle.split_flow.specs.Moved.{units_moved};
ghost use Rattle.split_flow.specs.Solved.{IsSolved};
ghost use Rattle.split_graph.specs.Arcs.{IsSameGraph, between};
ghost use Rattle.split_graph.specs.Network.{Fits, IsLaidFor, rows_of};
ghost use Rattle.flow_engine.specs.Solved.{unreached, flow_in, sides_in, IsCounted};
ghost use Rattle.flow_engine.specs.inner.Held.{IsLoaded, IsReserved, IsReadable};
ghost use Rattle.flow_engine.specs.inner.Reached.{layer_of};

use crate::phases::send_all;
use crate::reaching::Search;
use crate::reading::read;
use distances::{Queue, capacities};
use frozen::Frozen;
use split_graph::{Residual, in_half, out_half};
use std::alloc::Global;
use std::marker::Model;
use std::sync::ledger::Ledger;
use trust_types::{AccountNo, CertGraph, Level, NoMemory, Node, Side, Steps};

/// Loads a level of a site whose arcs are laid out. The list has a place for the capacity of each account.
fn load(
    frozen: &Frozen,
    level: Level,
    places: &mut [u32],
    queue: &mut Queue,
    residual: &mut Residual,
)
    requires grade { IsGrade level }
    requires laid { IsLaidFor frozen.now residual.old }
    requires places { (certificates frozen.now).accounts ≤ length places.old }
    requires queue { (certificates frozen.now).accounts ≤ queue.old }
    ensures room { residual.new.room ≡ residual.old.room }
    ensures arcs { IsSameGraph residual.old.arcs residual.new.arcs }
    ensures loaded { IsLoaded frozen.now level residual.new }
    ensures queue { queue.new ≡ queue.old }
{
    let capacities_of = &mut places[..frozen.accounts() as usize];
    capacities(frozen, level, frozen.caps(), capacities_of, queue);
    residual.load(frozen, level, capacities_of);
}

/// The memory of a solve beside the residual graph: for the search and the ways, for the capacities of the accounts and the queue by
/// which they are worked out, and for what is read of the flow: the units along each arc and from the root, and whom it serves.
#[derive(Drop)]
struct Scratch {
    search: Search,
    way: Vec<u32>,
    queue: Queue,
    capacities: Vec<u32>,
    units: Vec<u32>,
    root_units: Vec<u32>,
    served: Vec<bool>,
}

impl Scratch {
    /// Memory for sites with at most so many accounts and certificates. No node was reached yet.
    fn reserve(alloc: Global, accounts: u32, certs: u32) -> Result<Scratch, NoMemory>
        ensures reserved { IfOk result (λ scratch. IsReserved (record { accounts = accounts; certs = certs }) scratch) }
        ensures none { IfOk result (λ scratch. (v : ℕ) → unreached ≤ layer_of scratch.search v) }
    {
        let nodes = 2 * accounts as usize + 3;
        let arcs = 2 * (3 * accounts as usize + certs as usize + 1);
        Ok(Scratch {
            search: Search::reserve(alloc, nodes)?,
            way: Vec::with_capacity(alloc, nodes)?,
            queue: Queue::reserve(alloc, accounts)?,
            capacities: vec![in alloc; 0; accounts as usize]?,
            units: vec![in alloc; 0; arcs]?,
            root_units: vec![in alloc; 0; accounts as usize]?,
            served: vec![in alloc; false; accounts as usize]?,
        })
    }

    /// Loads a level of a site whose arcs are laid out, solves it, and reads the flow.
    fn solve<L: Ledger>(
        &mut self,
        frozen: &Frozen,
        level: Level,
        residual: &mut Residual,
        steps: &mut Steps<L>,
    )
        requires grade { IsGrade level }
        requires laid { IsLaidFor frozen.now residual.old }
        requires fits { Fits frozen.now residual.old.room }
        requires reserved { IsReserved residual.old.room self.old }
        ensures room { residual.new.room ≡ residual.old.room }
        ensures graph { residual.new.graph ≡ Some frozen.now }
        ensures level { residual.new.level ≡ Some level }
        ensures arcs { IsSameGraph residual.old.arcs residual.new.arcs }
        ensures reserved { IsReserved residual.new.room self.new }
        ensures readable { IsReadable residual.new self.new }
        ensures counted { IsCounted frozen.now level (units_moved (between residual.new.arcs)) steps.old steps.new }
        ensures solved { IsSolved (certificates frozen.now) level frozen.now.caps (flow_in (record { network = residual.new; layer = self.new.search.layer })) (sides_in (record { network = residual.new; layer = self.new.search.layer })) }
    {
        // Its contract says that the accounts give no more certificates than there is room for.
        let _certs = frozen.certs();
        load(
            frozen,
            level,
            &mut self.capacities,
            &mut self.queue,
            residual,
        );
        send_all(&mut self.search, residual, &mut self.way, steps);
        read(
            residual,
            frozen,
            &mut self.units,
            &mut self.root_units,
            &mut self.served,
            steps,
        );
    }
}

/// The memory of the engine. Contracts see the room that was reserved, the graph and the level that were solved, and the flow and
/// the cut that were found.
#[derive(Drop)]
pub struct Workspace {
    residual: Residual,
    scratch: Scratch,
}

impl Model for Workspace {
    ghost use Rattle.std.specs.Option.{ForSome};
    ghost use Rattle.flow_engine.specs.Solved.{Solved};
    ghost use Rattle.flow_engine.specs.inner.Held.{IsReserved, IsReadable};

    ghost Value = { Solved };

    ghost view = { λ w. record { network = w.residual; layer = w.scratch.search.layer } };

    ghost invariant = { λ w. IsReserved w.residual.room w.scratch × ForSome w.residual.graph (λ _. IsReadable w.residual w.scratch) };
}

impl Workspace {
    /// Room to solve sites with at most so many accounts and certificates. All memory is taken here. Nothing is solved yet, and
    /// nothing is reached: no node is in the cut.
    ///
    /// # Errors
    /// [`NoMemory`] where that memory can't be had.
    pub fn reserve(alloc: Global, accounts: u32, certs: u32) -> Result<Workspace, NoMemory>
        ensures room { IfOk result (λ workspace. workspace.network.room ≡ record { accounts = accounts; certs = certs }) }
        ensures empty { IfOk result (λ workspace. workspace.network.graph ≡ None) }
        ensures unreached { IfOk result (λ workspace. (x : Node) → sides_in workspace x ≡ Outside) }
    {
        Ok(Workspace {
            residual: Residual::reserve(alloc, accounts, certs)?,
            scratch: Scratch::reserve(alloc, accounts, certs)?,
        })
    }

    /// Finds a greatest flow of a site at a level whose conduits are served, and a cut of equal value. What was found before is lost.
    ///
    /// It takes no memory. `steps` counts the looks at arcs: at most `3 * arcs * (m + 1) + served * (2 * accounts + 4)`, where `served` is how
    /// many accounts the flow serves and arcs are `2 * (2 * accounts + seeds + certificates + 1)`. m is the lesser of `served + 1` and the least
    /// of `d + s / d + 1` for d from 1 to 2,000, where s is the root's capacity and twice those of all accounts.
    pub fn solve<L: Ledger>(&mut self, frozen: &Frozen, level: Level, steps: &mut Steps<L>)
        requires grade { IsGrade level }
        requires room { Fits frozen.now self.old.network.room }
        ensures room { self.new.network.room ≡ self.old.network.room }
        ensures graph { self.new.network.graph ≡ Some frozen.now }
        ensures level { self.new.network.level ≡ Some level }
        ensures solved { IsSolved (certificates frozen.now) level frozen.now.caps (flow_in self.new) (sides_in self.new) }
        ensures counted { IsCounted frozen.now level (flow_in self.new) steps.old steps.new }
    {
        self.residual.lay_out(frozen);
        self.scratch.solve(frozen, level, &mut self.residual, steps);
    }

    /// Finds the same at another level of the graph that was solved last. Its arcs stay where they lie, which spares most of the
    /// loading.
    ///
    /// It takes no memory, and at most as many steps as [`Workspace::solve`].
    pub fn solve_again<L: Ledger>(&mut self, frozen: &Frozen, level: Level, steps: &mut Steps<L>)
        requires grade { IsGrade level }
        requires graph { self.old.network.graph ≡ Some frozen.now }
        ensures room { self.new.network.room ≡ self.old.network.room }
        ensures graph { self.new.network.graph ≡ Some frozen.now }
        ensures level { self.new.network.level ≡ Some level }
        ensures arcs { IsSameGraph self.old.network.arcs self.new.network.arcs }
        ensures solved { IsSolved (certificates frozen.now) level frozen.now.caps (flow_in self.new) (sides_in self.new) }
        ensures counted { IsCounted frozen.now level (flow_in self.new) steps.old steps.new }
    {
        self.scratch.solve(frozen, level, &mut self.residual, steps);
    }

    /// Whether the flow serves an account.
    pub fn served(&self, account: AccountNo) -> bool
        requires { account < accounts (rows_of self.now.network) }
        ensures { result ≡ is_served (accounts (rows_of self.now.network)) (flow_in self.now) account }
    {
        self.scratch.served[account.index()]
    }

    /// The units that the flow sends along the i-th certificate that an account gives, counted from 0.
    pub fn units(&self, account: AccountNo, i: u32) -> u32
        requires account { account < accounts (rows_of self.now.network) }
        requires within { i < degree (rows_of self.now.network) account }
        ensures { result ≡ flow_in self.now (Account account) (taker (rows_of self.now.network) account i) }
    {
        self.scratch.units[self.residual.arc_of(Node::Account(account), i) as usize]
    }

    /// The units that the flow sends from the root to an account.
    pub fn root_units(&self, account: AccountNo) -> u32
        requires { account < accounts (rows_of self.now.network) }
        ensures { result ≡ flow_in self.now Root account }
    {
        self.scratch.root_units[account.index()]
    }

    /// The side of the cut on which a node lies.
    pub fn side(&self, node: Node) -> Side
        requires { IsNode (accounts (rows_of self.now.network)) node }
        ensures { result ≡ sides_in self.now node }
    {
        if !self.scratch.search.has(in_half(&node)) {
            return Side::Outside;
        }
        if self.scratch.search.has(out_half(&node)) {
            return Side::Pass;
        }
        Side::Full
    }
}
