use crate::sites::{crowd, site};
use attack_bound::attack_bound;
use distances::{Queue, capacities};
use roster_form::Publication;
use solver::{solve_alone, solve_one};
use std::test::Fail;
use trust_types::{AccountNo, CertGraph, Level};

#[test]
fn a_frozen_graph_is_that_of_its_text(rt: HostRuntime) -> Result<(), Fail> {
    let text = b"caps 5 1\naccount raph\naccount alan\nseed raph\ncert raph alan Journeyer\n";
    let frozen = site(rt.alloc(), text)?;
    if frozen.accounts() != 2 {
        return Err("two accounts".into());
    }
    assert_eq!(rt; frozen.revision(), 4);
    assert_eq!(rt; frozen.certs(), 1);
    assert_eq!(rt; frozen.caps().at(0), 5);
    let alan = frozen.name(AccountNo(1));
    assert_eq!(rt; alan.as_str(), "alan");
    assert_eq!(rt; frozen.find(&alan), Some(AccountNo(1)));
    assert!(rt; frozen.is_seed(AccountNo(0)) && !frozen.is_seed(AccountNo(1)));
    if frozen.degree(AccountNo(0)) != 1 {
        return Err("one certificate".into());
    }
    let cert = frozen.given(AccountNo(0), 0);
    assert_eq!(rt; cert.to, AccountNo(1));
    assert_eq!(rt; cert.level, Level::Journeyer);
    Ok(())
}

#[test]
fn a_crowd_gets_what_its_bridge_can_give(rt: HostRuntime) -> Result<(), Fail> {
    let frozen = crowd(rt.alloc())?;
    if frozen.accounts() != 5 {
        return Err("five accounts".into());
    }
    let mut queue = Queue::reserve(rt.alloc(), 5)?;
    let mut by_number = [0; 5];
    capacities(
        &*frozen,
        Level::Master,
        frozen.caps(),
        &mut by_number,
        &mut queue,
    );
    assert_eq!(rt; by_number, [4, 2, 1, 1, 1]);
    let members = [false, false, true, true, true];
    assert_eq!(rt;
        attack_bound(&*frozen, Level::Master, &by_number, &members),
        1
    );
    let roster = solve_one(rt.alloc(), &frozen, Level::Master)?;
    assert!(rt; roster.has(AccountNo(2)) && !roster.has(AccountNo(3)) && !roster.has(AccountNo(4)));
    Ok(())
}

/// Threads can share what is published.
fn is_shared<T: Send + Sync>(_value: &T) {}

#[test]
fn the_highest_level_is_held(rt: HostRuntime) -> Result<(), Fail> {
    let frozen = crowd(rt.alloc())?;
    let publication = Publication {
        number: 1,
        revision: frozen.revision(),
        candidate: solve_alone(rt.alloc(), &frozen)?,
    };
    is_shared(&publication);
    assert_eq!(rt; publication.level_of(AccountNo(2)), Level::Master);
    assert_eq!(rt; publication.level_of(AccountNo(3)), Level::Observer);
    Ok(())
}
