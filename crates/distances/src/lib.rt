//! The capacity of each account, by its distance from the root.
#![tactic(auto)]

mod layers;

ghost use Rattle.std.specs.Prelude.{ℕ, ◌≡◌, ◌≤◌, length, vec_capacity, IfOk};
ghost use Rattle.trust_types.specs.Levels.{IsGrade};
ghost use Rattle.trust_types.specs.Capacity.{entry, AreCapacities, cap_by};

use std::alloc::Global;
use std::marker::Model;
use trust_types::{AccountNo, Caps, CertGraph, Level, NoMemory};

/// Where accounts wait during a search. It serves one graph after another, and contracts see for how many accounts.
#[derive(Drop)]
pub struct Queue {
    accounts: Vec<AccountNo>,
}

impl Model for Queue {
    ghost Value = { ℕ };

    ghost view = { λ q. vec_capacity q.accounts };
}

impl Queue {
    /// A queue for graphs of at most so many accounts. It takes all its memory here, four bytes an account.
    ///
    /// # Errors
    /// [`NoMemory`] where that memory can't be had.
    pub fn reserve(alloc: Global, accounts: u32) -> Result<Queue, NoMemory>
        ensures { IfOk result (λ queue. queue ≡ accounts) }
    {
        Ok(Queue {
            accounts: Vec::with_capacity(alloc, accounts as usize)?,
        })
    }
}

/// Writes into `out`, by number, the capacity of each account at a level: the table's entry at its distance from the
/// root, the last entry where the distance is past the table, and 0 where no walk leads to it. What `out` had before
/// doesn't matter.
///
/// It takes no memory, and time linear in accounts and certificates: it looks at each certificate once at most.
pub fn capacities<G: CertGraph>(
    graph: &G,
    level: Level,
    caps: &Caps,
    out: &mut [u32],
    queue: &mut Queue,
)
    requires grade { IsGrade level }
    requires places { length out.old ≡ (G.certificates graph.now).accounts }
    requires room { (G.certificates graph.now).accounts ≤ queue.old }
    // The root has the first entry.
    ensures capacities { AreCapacities (G.certificates graph.now) level caps.now (cap_by (entry caps.now 0) out.new) }
    // It can be used again.
    ensures queue { queue.new ≡ queue.old }
{
    out.fill(0);
    queue.accounts.clear();
    layers::search(graph, level, caps, out, &mut queue.accounts);
}
