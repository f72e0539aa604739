//! The lines of a flow.

ghost use Rattle.std.specs.Prelude.{◌≡◌, IfOk, IfSome, ◌<◌, length, map};
ghost use Rattle.trust_types.specs.Lines.{IsLineAmong, IsNodeAmong};
ghost use Rattle.pair_map.specs.Pairs.{Rises};
ghost use Rattle.claim_lines.specs.Claim.{ends_in, flow_in, units_of};
ghost use Rattle.claim_lines.specs.inner.Flows.{node_at, line_of};

use crate::nodes::{find_node, is_node};
use name_index::NameIndex;
use pair_map::PairMap;
use std::alloc::{AllocError, Global};
use text_lines::{TextKind, Words, fault_unless, name_in, number};
use trust_types::{AccountNo, FlowLine, Node};

/// The line of a flow behind `flow`.
pub(crate) fn flow_in(names: &NameIndex, words: &mut Words) -> Result<FlowLine, TextKind>
    ensures line { result ≡ flow_in names.now words.old }
    ensures among { IfOk result (IsLineAmong (length names.now)) }
{
    let (giver, taker, word) = words.three()?;
    let units = units_of(word).ok_or(TextKind::BadNumber)?;
    let (from, to) = ends_in(names, giver, taker)?;
    Ok(FlowLine { from, to, units })
}

/// The number of units that the word writes; `None` where it has another form or is 0.
fn units_of(word: &[u8]) -> Option<u32>
    ensures units { result ≡ units_of word.now }
    ensures some { IfSome result (λ units. 0 < units) }
{
    match number(word) {
        Some(0) | None => None,
        Some(units) => Some(units),
    }
}

/// A node and an account by their words.
fn ends_in(names: &NameIndex, giver: &[u8], taker: &[u8]) -> Result<(Node, AccountNo), TextKind>
    ensures ends { result ≡ ends_in names.now giver.now taker.now }
    ensures among { IfOk result (λ ends. IsNodeAmong (length names.now) ends.0 × (ends.1 < length names.now)) }
{
    fault_unless(is_node(giver), TextKind::BadName)?;
    let taker = name_in(taker)?;
    let from = find_node(names, giver).ok_or(TextKind::Unknown)?;
    let to = names.find(&taker).ok_or(TextKind::Unknown)?;
    Ok((from, to))
}

/// A line for each pair that has units, by giver and taker.
pub(crate) fn lines_of(alloc: Global, units: PairMap<u32>) -> Result<Vec<FlowLine>, AllocError>
    ensures all { IfOk result (λ lines. lines.items ≡ map line_of units) }
    ensures rises { Rises units }
{
    units
        .into_pairs()
        .map(|((place, to), units)| line_of(place, to, units))
        .collect(alloc)
}

fn line_of(place: u32, to: u32, units: u32) -> FlowLine
    ensures { result ≡ line_of ((place, to), units) }
{
    FlowLine {
        from: node_at(place),
        to: AccountNo(to),
        units,
    }
}

/// The node at a place in the order of nodes.
fn node_at(place: u32) -> Node
    ensures { result ≡ node_at place }
{
    match place {
        0 => Node::Root,
        _ => Node::Account(AccountNo(place - 1)),
    }
}
