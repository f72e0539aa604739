ghost use Rattle.std.specs.Prelude.{◌≡◌, ◌<◌, Some};
ghost use Rattle.trust_types.specs.Levels.{IsGrade};
ghost use Rattle.frozen.specs.Revision.{certificates};
ghost use Rattle.split_graph.specs.Arcs.{arc_count};
ghost use Rattle.split_graph.specs.Network.{Fits, StandsFor};

use crate::sites::{crowd, site};
use distances::{Queue, capacities};
use flow_engine::Workspace;
use frozen::Frozen;
use site_text::read_site;
use split_graph::{ArcView, Residual};
use std::alloc::Global;
use std::marker::Brand;
use std::sync::ledger::{Blank, Ledger};
use std::test::Fail;
use trust_types::{AccountNo, CertGraph, Level, Node, Side, Steps};

/// Solves a site at the lowest level and then again at the highest.
fn solve_at_master<L: Ledger>(workspace: &mut Workspace, frozen: &Frozen, blank: Blank)
    requires name { blank.name ≡ L.name }
    requires parts { blank.parts ≡ L.parts }
    requires some { 0 < blank.parts }
    requires room { Fits frozen.now workspace.old.network.room }
    ensures graph { workspace.new.network.graph ≡ Some frozen.now }
{
    let mut steps = Steps::<L>::new(blank);
    workspace.solve(frozen, Level::Apprentice, &mut steps);
    workspace.solve_again(frozen, Level::Master, &mut steps);
}

#[test]
fn a_workspace_may_have_more_room_than_a_site_needs(rt: HostRuntime) -> Result<(), Fail> {
    let mut workspace = Workspace::reserve(rt.alloc(), 10, 22)?;
    let frozen = crowd(rt.alloc())?;
    if frozen.accounts() != 5 || frozen.certs() > 22 {
        return Err("five accounts".into());
    }
    solve_at_master::<Brand>(&mut workspace, &frozen, Blank::new(1));
    for (number, is_served) in [(0, true), (1, true), (2, true), (3, false), (4, false)] {
        assert_eq!(rt; workspace.served(AccountNo(number)), is_served, "{number}");
    }
    assert_eq!(rt; workspace.root_units(AccountNo(0)), 3);
    assert_eq!(rt; workspace.side(Node::Account(AccountNo(1))), Side::Full);
    Ok(())
}

/// The text of a site whose one seed certifies all others as Master.
fn star_text(alloc: Global, accounts: u32) -> Result<String, Fail> {
    let mut text = format!(in alloc; "caps 2000 2000 1\n")?;
    for account in 0..accounts {
        text.push_str(&format!(in alloc; "account u{account}\n")?)?;
    }
    text.push_str("seed u0\n")?;
    for account in 1..accounts {
        text.push_str(&format!(in alloc; "cert u0 u{account} Master\n")?)?;
    }
    Ok(text)
}

#[test]
fn a_wide_star_accepts_all_but_one(rt: HostRuntime) -> Result<(), Fail> {
    let text = star_text(rt.alloc(), 2_000)?;
    if text.len() > 100_000 {
        return Err("a short text".into());
    }
    let Ok(frozen) = read_site(rt.alloc(), text.as_bytes()) else {
        return Err("no site".into());
    };
    if frozen.accounts() != 2_000 || frozen.certs() > 1_999 {
        return Err("two thousand accounts".into());
    }
    let mut workspace = Workspace::reserve(rt.alloc(), 2_000, 1_999)?;
    solve_at_master::<Brand>(&mut workspace, &frozen, Blank::new(1));
    for number in 0..2_000 {
        assert_eq!(rt;
            workspace.served(AccountNo(number)),
            number < 1_999,
            "{number}"
        );
    }
    Ok(())
}

/// The first arc of each split node of the site below, and the number of arcs.
const FIRSTS: [u32; 10] = [0, 3, 4, 6, 9, 12, 15, 16, 19, 20];

/// The split node that each arc enters, by number, and whether a unit can be moved along it at Master.
const ARCS: [(u32, bool); 20] = [
    // back out of the supersink
    (3, false),
    (5, false),
    (7, false),
    // of the root's halves: through it and back, and to the seed
    (2, true),
    (1, false),
    (3, true),
    // of the seed's: through it, to the supersink, back to the root; back through it, and to the two that it certifies
    (4, true),
    (0, true),
    (2, false),
    (3, false),
    (5, true),
    (7, false),
    // of those of the one that it certifies as Master
    (6, true),
    (0, true),
    (4, false),
    (5, false),
    // and as Apprentice: it has no capacity
    (8, false),
    (0, true),
    (4, false),
    (7, false),
];

/// Loads a site of three accounts at a level, with its capacities there.
fn load(frozen: &Frozen, level: Level, queue: &mut Queue, residual: &mut Residual)
    requires grade { IsGrade level }
    requires accounts { (certificates frozen.now).accounts ≡ 3 }
    requires room { Fits frozen.now residual.old.room }
    requires queue { queue.old ≡ 3 }
    ensures accounts { residual.new.arcs.accounts ≡ 3 }
    ensures stands { StandsFor residual.new }
    ensures queue { queue.new ≡ 3 }
{
    let mut caps_of = [0; 3];
    capacities(frozen, level, frozen.caps(), &mut caps_of, queue);
    residual.lay_out(frozen);
    residual.load(frozen, level, &caps_of);
}

/// Looks at an arc.
fn look_at<L: Ledger>(residual: &Residual, arc: u32, blank: Blank) -> ArcView
    requires name { blank.name ≡ L.name }
    requires parts { blank.parts ≡ L.parts }
    requires some { 0 < blank.parts }
    requires stands { StandsFor residual.now }
    requires arc { arc < arc_count residual.now.arcs }
{
    let mut steps = Steps::<L>::new(blank);
    residual.look(arc, &mut steps)
}

#[test]
fn a_level_has_its_arcs(rt: HostRuntime) -> Result<(), Fail> {
    let text =
        b"caps default\naccount a\naccount b\naccount c\nseed a\ncert a b Master\ncert a c Apprentice\n";
    let frozen = site(rt.alloc(), text)?;
    if frozen.accounts() != 3 {
        return Err("three accounts".into());
    }
    let mut queue = Queue::reserve(rt.alloc(), 3)?;
    let mut residual = Residual::reserve(rt.alloc(), 3, frozen.certs())?;
    load(&frozen, Level::Master, &mut queue, &mut residual);
    for node in 0..10 {
        assert_eq!(rt;
            residual.first(node),
            FIRSTS[node as usize],
            "of node {node}"
        );
    }
    if residual.first(9) != 20 {
        return Err("twenty arcs".into());
    }
    for arc in 0..20 {
        let (head, passable) = ARCS[arc as usize];
        let view = look_at::<Brand>(&residual, arc, Blank::new(1));
        assert_eq!(rt; view.head, head, "along arc {arc}");
        assert_eq!(rt; view.passable, passable, "along arc {arc}");
    }
    Ok(())
}
