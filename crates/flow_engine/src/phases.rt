//! All units, sent phase by phase.

ghost use Rattle.std.specs.Prelude.{ℕ, ◌≡◌, ◌≤◌, length, vec_capacity};
ghost use Rattle.split_flow.specs.Moved.{PassesServed, IsSaturated};
ghost use Rattle.split_graph.specs.Numbers.{node_number, node_count};
ghost use Rattle.split_graph.specs.Arcs.{between};
ghost use Rattle.split_graph.specs.Network.{IsSameNetwork, StandsFor};
ghost use Rattle.flow_engine.specs.inner.Reached.{HasRoom, is_reached};
ghost use Rattle.flow_engine.specs.inner.Passed.{HavePassed};

use crate::reaching::Search;
use crate::serving::serve;
use split_graph::Residual;
use std::sync::ledger::Ledger;
use trust_types::Steps;

/// Sends units to the supersink, phase by phase, until none can be sent. Then nothing can be moved out of the nodes reached last.
pub fn send_all<L: Ledger>(
    search: &mut Search,
    residual: &mut Residual,
    way: &mut Vec<u32>,
    steps: &mut Steps<L>,
)
    requires stands { StandsFor residual.old }
    requires served { PassesServed (between residual.old.arcs) }
    requires room { HasRoom residual.old.arcs.accounts search.old }
    requires way { node_count residual.old.arcs.accounts ≤ vec_capacity way.old }
    ensures same { IsSameNetwork residual.old residual.new }
    ensures passed { HavePassed residual.old residual.new steps.old steps.new 1 }
    ensures served { PassesServed (between residual.new.arcs) }
    ensures saturated { IsSaturated (between residual.new.arcs) (λ u. is_reached search.new (node_number u)) }
    ensures stands { StandsFor residual.new }
    ensures long { length search.new.layer ≡ length search.old.layer }
    ensures cursors { length search.new.cursor ≡ length search.old.cursor }
    ensures places { search.new.room ≡ search.old.room }
    ensures capacity { vec_capacity way.new ≡ vec_capacity way.old }
{
    while let Some(deep) = search.find(residual, steps) {
        serve(search, residual, deep, way, steps);
    }
}
