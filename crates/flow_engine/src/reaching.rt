//! Searches by layers: the distances of split nodes from the source through a residual graph.

ghost use Rattle.std.specs.Prelude.{ℕ, ◌≡◌, ◌<◌, ◌≤◌, ◌+◌, ◌^◌, IfSome, IfNone, IfOk, length, vec_capacity, slice_index_or, true, false};
ghost use Rattle.split_flow.specs.Moved.{IsSaturated};
ghost use Rattle.split_graph.specs.Numbers.{node_number, node_count};
ghost use Rattle.split_graph.specs.Arcs.{arc_count, first_of, head_of, tail_of, rest_of, between};
ghost use Rattle.split_graph.specs.Network.{StandsFor};
ghost use Rattle.flow_engine.specs.Solved.{unreached};
ghost use Rattle.flow_engine.specs.inner.Ways.{pass, AreServing};
ghost use Rattle.flow_engine.specs.inner.Reached.{HasRoom, AreMarked, AreNearest, AreReached, IsGrown, IsLookedAt, IsOpen, EndsAfter, IsBegun, IsClosed, IsSearching, first_node, last_node, row_length, reached_count, node_at, layer_of, cursor_of, is_reached, layers_by, reach};

use split_graph::{Residual, SOURCE, entered_account};
use std::alloc::{AllocError, Global};
use std::marker::Model;
use std::sync::ledger::Ledger;
use trust_types::Steps;

/// The layer of a node that wasn't reached.
const UNREACHED: u32 = u32::MAX;

/// The nodes that a search reached, the nearest first, with the layer of each, and its first arc that may still lead on.
#[derive(Drop)]
pub struct Search {
    nodes: Vec<u32>,
    layer: Vec<u32>,
    cursor: Vec<u32>,
}

impl Model for Search {
    ghost use Rattle.std.specs.Prelude.{vec_capacity};
    ghost use Rattle.flow_engine.specs.inner.Reached.{Reached, AreMarked};

    ghost Value = { Reached };

    ghost view = { λ s. record { nodes = s.nodes.items; layer = s.layer.items; cursor = s.cursor.items; room = vec_capacity s.nodes } };

    ghost invariant = { λ s. AreMarked s.nodes.items s.layer.items };
}

/// Takes the layers off these nodes, which are all that have one.
fn clear_layers(nodes: &[u32], layer: &mut [u32])
    requires { AreMarked nodes.now layer.old }
    ensures { (v : ℕ) → unreached ≤ slice_index_or layer.new v unreached }
{
    for node in nodes {
        layer[*node as usize] = UNREACHED;
    }
}

/// The arc from a node to the supersink, if a unit can be moved along it: the node is the first half of an unserved account.
fn ending<L: Ledger>(residual: &Residual, node: u32, steps: &mut Steps<L>) -> Option<u32>
    requires stands { StandsFor residual.now }
    requires node { node < node_count residual.now.arcs.accounts }
    ensures ends { IfSome result (λ arc. IsOpen residual.now.arcs node last_node arc) }
    ensures closed { IfNone result (IsClosed residual.now.arcs node) }
    ensures steps { steps.new ≤ steps.old + 1 }
{
    let account = entered_account(node)?;
    let arc = residual.end_arc(account);
    residual.look(arc, steps).passable.then_some(arc)
}

impl Search {
    /// A search with room for so many split nodes, which has reached none.
    pub fn reserve(alloc: Global, nodes: usize) -> Result<Search, AllocError>
        ensures none { IfOk result (λ search. (v : ℕ) → unreached ≤ layer_of search v) }
        ensures layer { IfOk result (λ search. length search.layer ≡ nodes) }
        ensures cursor { IfOk result (λ search. length search.cursor ≡ nodes) }
        ensures room { IfOk result (λ search. search.room ≡ nodes) }
    {
        Ok(Search {
            nodes: Vec::with_capacity(alloc, nodes)?,
            layer: vec![in alloc; UNREACHED; nodes]?,
            cursor: vec![in alloc; 0; nodes]?,
        })
    }

    /// Whether a node was reached.
    pub fn has(&self, node: u32) -> bool
        requires { node < length self.now.layer }
        ensures { result ≡ is_reached self.now node }
    {
        self.layer[node as usize] < UNREACHED
    }

    /// The layer of a node; the greatest number where it wasn't reached.
    pub fn layer(&self, node: u32) -> u32
        requires { node < length self.now.layer }
        ensures { result ≡ layer_of self.now node }
    {
        self.layer[node as usize]
    }

    /// How many nodes were reached.
    fn count(&self) -> usize
        ensures { result ≡ reached_count self.now }
    {
        self.nodes.len()
    }

    /// The node at a place.
    fn node(&self, place: usize) -> u32
        requires { place < reached_count self.now }
        ensures { result ≡ node_at self.now place }
    {
        self.nodes[place]
    }

    /// The first arc of a node that may still lead on.
    pub fn cursor(&self, node: u32) -> u32
        requires { node < length self.now.cursor }
        ensures { result ≡ cursor_of self.now node }
    {
        self.cursor[node as usize]
    }

    /// Goes on to the next arc of a node.
    pub fn pass(&mut self, node: u32)
        requires within { node < length self.old.cursor }
        requires fits { cursor_of self.old node + 1 < 2 ^ 32 }
        ensures { self.new ≡ pass node self.old }
    {
        self.cursor[node as usize] += 1;
    }

    /// Begins a search at the source.
    fn begin(&mut self, residual: &Residual)
        requires stands { StandsFor residual.now }
        requires room { HasRoom residual.now.arcs.accounts self.old }
        ensures { IsBegun residual.now.arcs self.old self.new }
    {
        let cursor = residual.first(SOURCE);
        clear_layers(&self.nodes, &mut self.layer);
        self.layer[SOURCE as usize] = 0;
        self.cursor[SOURCE as usize] = cursor;
        self.nodes.clear();
        self.nodes.push_reserved(SOURCE);
    }

    /// Adds a node that was not reached before, in a layer.
    fn reach(&mut self, node: u32, layer: u32, cursor: u32)
        requires room { reached_count self.old < self.old.room }
        requires within { node < length self.old.layer }
        requires cursors { node < length self.old.cursor }
        requires layer { layer < unreached }
        ensures { self.new ≡ reach node layer cursor self.old }
    {
        self.layer[node as usize] = layer;
        self.cursor[node as usize] = cursor;
        self.nodes.push_reserved(node);
    }

    /// Reaches the node that an arc enters, unless a unit can be moved from there to the supersink: then the arc along which it can is
    /// the answer.
    fn enter<L: Ledger>(
        &mut self,
        residual: &Residual,
        arc: u32,
        node: u32,
        layer: u32,
        steps: &mut Steps<L>,
    ) -> Option<u32>
        requires stands { StandsFor residual.now }
        requires reached { AreReached residual.now.arcs self.old }
        requires within { arc < arc_count residual.now.arcs }
        requires tail { layer_of self.old (tail_of residual.now.arcs arc) < unreached }
        requires layer { layer ≡ layer_of self.old (tail_of residual.now.arcs arc) + 1 }
        requires head { node ≡ head_of residual.now.arcs arc }
        requires passable { 0 < rest_of residual.now.arcs arc }
        requires fresh { layer_of self.old node ≡ unreached }
        ensures reached { AreReached residual.now.arcs self.new }
        ensures grown { IsGrown residual.now.arcs (tail_of residual.now.arcs arc) layer self.old self.new }
        ensures ends { IfSome result (λ end. IsOpen residual.now.arcs node last_node end) }
        ensures looked { IfNone result (layer_of self.new node < unreached) }
        ensures steps { steps.new + reached_count self.old ≤ steps.old + reached_count self.new + 1 }
        ensures none { IfNone result (steps.new + reached_count self.old ≤ steps.old + reached_count self.new) }
    {
        if let Some(end) = ending(residual, node, steps) {
            return Some(end);
        }
        self.reach(node, layer, residual.first(node));
        None
    }

    /// Looks at an arc from a node that was reached: where it leads on, its head is reached in the next layer, unless a unit can be moved
    /// from there to the supersink. Then the arc along which it can is the answer.
    pub fn look<L: Ledger>(
        &mut self,
        residual: &Residual,
        arc: u32,
        layer: u32,
        steps: &mut Steps<L>,
    ) -> Option<u32>
        requires stands { StandsFor residual.now }
        requires reached { AreReached residual.now.arcs self.old }
        requires within { arc < arc_count residual.now.arcs }
        requires tail { layer_of self.old (tail_of residual.now.arcs arc) < unreached }
        requires layer { layer ≡ layer_of self.old (tail_of residual.now.arcs arc) + 1 }
        ensures reached { AreReached residual.now.arcs self.new }
        ensures grown { IsGrown residual.now.arcs (tail_of residual.now.arcs arc) layer self.old self.new }
        ensures ends { IfSome result (λ end. EndsAfter residual.now.arcs arc end) }
        ensures looked { IfNone result (IsLookedAt residual.now.arcs self.new arc) }
        ensures steps { steps.new + reached_count self.old ≤ steps.old + reached_count self.new + 2 }
        ensures none { IfNone result (steps.new + reached_count self.old ≤ steps.old + reached_count self.new + 1) }
    {
        let view = residual.look(arc, steps);
        if !view.passable {
            return None;
        }
        if self.layer(view.head) != UNREACHED {
            return None;
        }
        self.enter(residual, arc, view.head, layer, steps)
    }

    /// Looks at the arcs of the node at a place. Whether it came to a node of the next layer from which a unit can be moved to the supersink.
    fn expand<L: Ledger>(&mut self, residual: &Residual, at: usize, steps: &mut Steps<L>) -> bool
        requires stands { StandsFor residual.now }
        requires searching { IsSearching residual.now.arcs self.old at }
        requires placed { at < reached_count self.old }
        ensures reached { AreReached residual.now.arcs self.new }
        ensures grown { IsGrown residual.now.arcs (node_at self.old at) (layer_of self.old (node_at self.old at) + 1) self.old self.new }
        ensures ends { result ≡ true → (arc : ℕ) × (end : ℕ) × (arc < arc_count residual.now.arcs) × (tail_of residual.now.arcs arc ≡ node_at self.old at) × EndsAfter residual.now.arcs arc end }
        ensures looked { result ≡ false → (e : ℕ) → first_of residual.now.arcs (node_at self.old at) ≤ e → e < first_of residual.now.arcs (node_at self.old at + 1) → IsLookedAt residual.now.arcs self.new e }
        ensures steps { steps.new + reached_count self.old ≤ steps.old + reached_count self.new + row_length residual.now.arcs (node_at self.old at) + 1 }
        ensures none { result ≡ false → steps.new + reached_count self.old ≤ steps.old + reached_count self.new + row_length residual.now.arcs (node_at self.old at) }
    {
        let node = self.node(at);
        let next = self.layer(node) + 1;
        let from = residual.first(node);
        let to = residual.first(node + 1);
        for arc in from..to {
            if let Some(_end) = self.look(residual, arc, next, steps) {
                return true;
            }
        }
        false
    }

    /// Finds the layers of the nodes up to the first one reached from which a unit can be moved to the supersink, and answers that one's. It
    /// isn't reached itself. Where there is none, all that can be reached was reached.
    pub fn find<L: Ledger>(&mut self, residual: &Residual, steps: &mut Steps<L>) -> Option<u32>
        requires stands { StandsFor residual.now }
        requires room { HasRoom residual.now.arcs.accounts self.old }
        ensures reached { AreReached residual.now.arcs self.new }
        ensures long { length self.new.layer ≡ length self.old.layer }
        ensures cursors { length self.new.cursor ≡ length self.old.cursor }
        ensures places { self.new.room ≡ self.old.room }
        ensures nearest { IfSome result (λ deep. AreNearest residual.now.arcs (layers_by deep self.new)) }
        ensures serving { IfSome result (λ deep. AreServing residual.now.arcs deep self.new) }
        ensures none { IfNone result (IsSaturated (between residual.now.arcs) (λ u. is_reached self.new (node_number u))) }
        ensures steps { steps.new ≤ steps.old + arc_count residual.now.arcs + reached_count self.new + 1 }
    {
        self.begin(residual);
        let mut at = 0;
        while at < self.count() {
            if self.expand(residual, at, steps) {
                return Some(self.layer(self.node(at)) + 1);
            }
            at += 1;
        }
        None
    }
}
