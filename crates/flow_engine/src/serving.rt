//! Units sent along shortest ways, until none is left.

ghost use Rattle.std.specs.Prelude.{ℕ, ◌≡◌, ◌<◌, ◌≤◌, ◌+◌, ◌-◌, ◌*◌, ◌++◌, ◌∷◌, [], IfSome, IfNone, length, slice_index, take, vec_capacity, vec_len};
ghost use Rattle.split_flow.specs.Split.{source};
ghost use Rattle.split_flow.specs.Moved.{IsMidway, PassesServed};
ghost use Rattle.split_graph.specs.Numbers.{node_count};
ghost use Rattle.split_graph.specs.Arcs.{arc_count, between};
ghost use Rattle.split_graph.specs.Network.{IsSameNetwork, StandsFor};
ghost use Rattle.layers.specs.Layers.{IsPhase};
ghost use Rattle.flow_engine.specs.inner.Reached.{HasRoom, AreNearest, first_node, reached_count, layers_by};
ghost use Rattle.flow_engine.specs.inner.Ways.{IsSpent, AreServing, IsOnWay, IsWay, IsServedOn, LeadsOn, LeadsElsewhere, left_over, used};
ghost use Rattle.flow_engine.specs.inner.Passed.{sent_by};

use crate::reaching::Search;
use split_graph::{Residual, SOURCE};
use std::sync::ledger::Ledger;
use trust_types::Steps;

/// Looks at the arcs of a way's last node, which is of the layer before the deepest, until a unit can be moved from behind one to the
/// supersink: the arc along which it can is the answer.
fn find_end<L: Ledger>(
    search: &mut Search,
    residual: &Residual,
    deep: u32,
    way: &[u32],
    steps: &mut Steps<L>,
) -> Option<u32>
    requires stands { StandsFor residual.now }
    requires serving { AreServing residual.now.arcs deep search.old }
    requires on { IsOnWay residual.now.arcs deep search.old way.now }
    requires long { length way.now ≡ deep }
    ensures served { IsServedOn residual.now.arcs deep search.old search.new way.now }
    ensures way { IfSome result (λ end. IsWay residual.now.arcs deep search.new way.now end) }
    ensures spent { IfNone result (IsSpent residual.now.arcs deep search.new (slice_index way.now (length way.now - 1))) }
    ensures steps { steps.new + reached_count search.old + used residual.now.arcs deep search.old ≤ steps.old + reached_count search.new + used residual.now.arcs deep search.new + 2 }
    ensures none { IfNone result (steps.new + reached_count search.old + used residual.now.arcs deep search.old ≤ steps.old + reached_count search.new + used residual.now.arcs deep search.new) }
{
    let node = way[way.len() - 1];
    let to = residual.first(node + 1);
    while search.cursor(node) < to {
        let arc = search.cursor(node);
        if let Some(end) = search.look(residual, arc, deep, steps) {
            return Some(end);
        }
        search.pass(node);
    }
    None
}

/// Looks at an arc: the node that it enters, if a unit can be moved to it and it is of the next layer.
fn leads_on<L: Ledger>(
    search: &Search,
    residual: &Residual,
    arc: u32,
    next: u32,
    steps: &mut Steps<L>,
) -> Option<u32>
    requires stands { StandsFor residual.now }
    requires within { arc < arc_count residual.now.arcs }
    requires room { node_count residual.now.arcs.accounts ≤ length search.now.layer }
    ensures on { IfSome result (LeadsOn residual.now.arcs search.now next arc) }
    ensures elsewhere { IfNone result (LeadsElsewhere residual.now.arcs search.now next arc) }
    ensures step { steps.new ≡ steps.old + 1 }
{
    let view = residual.look(arc, steps);
    if !view.passable {
        return None;
    }
    if search.layer(view.head) != next {
        return None;
    }
    Some(view.head)
}

/// Looks at the arcs of a way's last node, which is of a layer before that, until one leads on to the next layer, and answers the node
/// that this one enters.
fn find_next<L: Ledger>(
    search: &mut Search,
    residual: &Residual,
    deep: u32,
    way: &[u32],
    steps: &mut Steps<L>,
) -> Option<u32>
    requires stands { StandsFor residual.now }
    requires serving { AreServing residual.now.arcs deep search.old }
    requires on { IsOnWay residual.now.arcs deep search.old way.now }
    requires some { 0 < length way.now }
    requires short { length way.now < deep }
    ensures served { IsServedOn residual.now.arcs deep search.old search.new way.now }
    ensures next { IfSome result (λ head. IsOnWay residual.now.arcs deep search.new (way.now ++ head ∷ [])) }
    ensures spent { IfNone result (IsSpent residual.now.arcs deep search.new (slice_index way.now (length way.now - 1))) }
    ensures steps { steps.new + reached_count search.old + used residual.now.arcs deep search.old ≤ steps.old + reached_count search.new + used residual.now.arcs deep search.new + 1 }
    ensures none { IfNone result (steps.new + reached_count search.old + used residual.now.arcs deep search.old ≤ steps.old + reached_count search.new + used residual.now.arcs deep search.new) }
{
    let _deep = deep;
    let next = way.len() as u32;
    let node = way[way.len() - 1];
    let to = residual.first(node + 1);
    while search.cursor(node) < to {
        let arc = search.cursor(node);
        if let Some(head) = leads_on(search, residual, arc, next, steps) {
            return Some(head);
        }
        search.pass(node);
    }
    None
}

/// Uses up the arc that led to a way's last node, from which no shortest way goes on.
fn pass_back(search: &mut Search, residual: &Residual, deep: u32, way: &[u32])
    requires stands { StandsFor residual.now }
    requires serving { AreServing residual.now.arcs deep search.old }
    requires on { IsOnWay residual.now.arcs deep search.old way.now }
    requires some { 0 < length way.now }
    requires spent { IsSpent residual.now.arcs deep search.old (slice_index way.now (length way.now - 1)) }
    ensures served { IsServedOn residual.now.arcs deep search.old search.new (take (length way.now - 1) way.now) }
    ensures spent { length way.now ≡ 1 → IsSpent residual.now.arcs deep search.new first_node }
    ensures used { used residual.now.arcs deep search.new + (length way.now - 2) ≡ used residual.now.arcs deep search.old + (length way.now - 1) }
    ensures count { reached_count search.new ≡ reached_count search.old }
{
    let _deep = deep;
    let _residual = residual;
    if way.len() > 1 {
        search.pass(way[way.len() - 2]);
    }
}

/// Takes its last node off a way, since no shortest way goes on from it.
fn leave(search: &mut Search, residual: &Residual, deep: u32, way: &mut Vec<u32>)
    requires stands { StandsFor residual.now }
    requires serving { AreServing residual.now.arcs deep search.old }
    requires on { IsOnWay residual.now.arcs deep search.old way.old.items }
    requires some { 0 < vec_len way.old }
    requires spent { IsSpent residual.now.arcs deep search.old (slice_index way.old.items (vec_len way.old - 1)) }
    ensures served { IsServedOn residual.now.arcs deep search.old search.new way.new.items }
    ensures shorter { vec_len way.new + 1 ≡ vec_len way.old }
    ensures spent { vec_len way.new ≡ 0 → IsSpent residual.now.arcs deep search.new first_node }
    ensures used { used residual.now.arcs deep search.new + (vec_len way.new - 1) ≡ used residual.now.arcs deep search.old + (vec_len way.old - 1) }
    ensures count { reached_count search.new ≡ reached_count search.old }
    ensures capacity { vec_capacity way.new ≡ vec_capacity way.old }
{
    pass_back(search, residual, deep, way);
    way.truncate(way.len() - 1);
}

/// Goes one node on along a way, or one back where it can't; the answer is the arc with which it ends, if it does.
fn step<L: Ledger>(
    search: &mut Search,
    residual: &Residual,
    deep: u32,
    way: &mut Vec<u32>,
    steps: &mut Steps<L>,
) -> Option<u32>
    requires stands { StandsFor residual.now }
    requires serving { AreServing residual.now.arcs deep search.old }
    requires on { IsOnWay residual.now.arcs deep search.old way.old.items }
    requires some { 0 < vec_len way.old }
    requires room { deep ≤ vec_capacity way.old }
    ensures served { IsServedOn residual.now.arcs deep search.old search.new way.new.items }
    ensures way { IfSome result (IsWay residual.now.arcs deep search.new way.new.items) }
    ensures spent { IfNone result (vec_len way.new ≡ 0 → IsSpent residual.now.arcs deep search.new first_node) }
    ensures steps { IfSome result (λ end. steps.new + reached_count search.old + used residual.now.arcs deep search.old ≤ steps.old + reached_count search.new + used residual.now.arcs deep search.new + 2) }
    ensures none { IfNone result (steps.new + reached_count search.old + used residual.now.arcs deep search.old + (vec_len way.old - 1) ≤ steps.old + reached_count search.new + used residual.now.arcs deep search.new + (vec_len way.new - 1)) }
    ensures goes { IfNone result (left_over residual.now.arcs deep search.new (vec_len way.new) < left_over residual.now.arcs deep search.old (vec_len way.old)) }
    ensures capacity { vec_capacity way.new ≡ vec_capacity way.old }
{
    if way.len() == deep as usize {
        if let Some(end) = find_end(search, residual, deep, way, steps) {
            return Some(end);
        }
        leave(search, residual, deep, way);
        return None;
    }
    if let Some(head) = find_next(search, residual, deep, way, steps) {
        way.push_reserved(head);
        return None;
    }
    leave(search, residual, deep, way);
    None
}

/// Finds a shortest way to the supersink, of which no arc was used up, and answers its last arc.
fn find_way<L: Ledger>(
    search: &mut Search,
    residual: &Residual,
    deep: u32,
    way: &mut Vec<u32>,
    steps: &mut Steps<L>,
) -> Option<u32>
    requires stands { StandsFor residual.now }
    requires serving { AreServing residual.now.arcs deep search.old }
    requires room { deep ≤ vec_capacity way.old }
    ensures served { IsServedOn residual.now.arcs deep search.old search.new way.new.items }
    ensures way { IfSome result (IsWay residual.now.arcs deep search.new way.new.items) }
    ensures spent { IfNone result (IsSpent residual.now.arcs deep search.new first_node) }
    ensures steps { steps.new + reached_count search.old + used residual.now.arcs deep search.old ≤ steps.old + reached_count search.new + used residual.now.arcs deep search.new + (deep + 1) }
    ensures none { IfNone result (steps.new + reached_count search.old + used residual.now.arcs deep search.old ≤ steps.old + reached_count search.new + used residual.now.arcs deep search.new) }
    ensures capacity { vec_capacity way.new ≡ vec_capacity way.old }
{
    way.clear();
    way.push_reserved(SOURCE);
    while way.len() > 0 {
        if let Some(end) = step(search, residual, deep, way, steps) {
            return Some(end);
        }
    }
    None
}

/// Moves one unit along the way that was found, its last arc first.
fn send(search: &Search, residual: &mut Residual, way: &[u32], end: u32)
    requires stands { StandsFor residual.old }
    requires serving { AreServing residual.old.arcs (length way.now) search.now }
    requires way { IsWay residual.old.arcs (length way.now) search.now way.now end }
    requires served { PassesServed (between residual.old.arcs) }
    ensures same { IsSameNetwork residual.old residual.new }
    ensures moved { IsMidway residual.old.arcs.accounts (between residual.old.arcs) (between residual.new.arcs) source }
    ensures served { PassesServed (between residual.new.arcs) }
    ensures serving { AreServing residual.new.arcs (length way.now) search.now }
    ensures stands { StandsFor residual.new }
{
    residual.push(end);
    let mut place = way.len();
    while place > 0 {
        place -= 1;
        residual.push(search.cursor(way[place]));
    }
}

/// Sends units along shortest ways until none is left: that is a phase.
pub fn serve<L: Ledger>(
    search: &mut Search,
    residual: &mut Residual,
    deep: u32,
    way: &mut Vec<u32>,
    steps: &mut Steps<L>,
)
    requires stands { StandsFor residual.old }
    requires serving { AreServing residual.old.arcs deep search.old }
    requires nearest { AreNearest residual.old.arcs (layers_by deep search.old) }
    requires served { PassesServed (between residual.old.arcs) }
    requires room { deep ≤ vec_capacity way.old }
    ensures same { IsSameNetwork residual.old residual.new }
    ensures phase { IsPhase residual.old.arcs.accounts (between residual.old.arcs) (between residual.new.arcs) }
    ensures served { PassesServed (between residual.new.arcs) }
    ensures stands { StandsFor residual.new }
    ensures steps { steps.new + reached_count search.old ≤ steps.old + reached_count search.new + arc_count residual.old.arcs + sent_by residual.old.arcs.accounts (between residual.old.arcs) (between residual.new.arcs) * (2 * residual.old.arcs.accounts + 4) }
    ensures count { reached_count search.new ≤ node_count residual.old.arcs.accounts }
    ensures room { HasRoom residual.old.arcs.accounts search.new }
    ensures long { length search.new.layer ≡ length search.old.layer }
    ensures cursors { length search.new.cursor ≡ length search.old.cursor }
    ensures places { search.new.room ≡ search.old.room }
    ensures capacity { vec_capacity way.new ≡ vec_capacity way.old }
{
    while let Some(end) = find_way(search, residual, deep, way, steps) {
        send(search, residual, way, end);
    }
}
