ghost use Rattle.std.specs.Prelude.{◌≡◌, ◌↔◌, ◌∷◌, [], is_err, IsErr, IfOk, OnErr};
ghost use Rattle.outside.specs.Causes.{HasCause};
ghost use Rattle.outside_serving.specs.Memory.{new_arrivals};
ghost use Rattle.outside_serving.specs.Ports.{CountsGiven};

use crate::counts::Count;
use crate::mem_link::MemLink;
use crate::port::Port;
use outside::Failed;
use std::collections::VecDeque;
use std::marker::Model;
use std::sync::Wait;

/// A port in memory: the links that it gives, in order. Contracts see an `Arrivals`.
#[derive(Drop)]
pub struct MemPort {
    links: VecDeque<MemLink>,
    faults: Count,
    given: Count,
}

impl Model for MemPort {
    ghost use Rattle.outside_serving.specs.Memory.{Arrivals};

    ghost Value = { Arrivals };

    ghost view = { λ s. record { left = s.links.items; faults = s.faults; given = s.given } };
}

impl MemPort {
    /// A port that gives these links, in order, and then fails. It takes no memory.
    pub fn new(links: Vec<MemLink>) -> MemPort
        ensures { result ≡ new_arrivals links.items }
    {
        MemPort {
            links: VecDeque::from(links),
            faults: Count::zero(),
            given: Count::zero(),
        }
    }
}

impl Port for MemPort {
    type Joined = MemLink;

    ghost faults = { λ s. s.faults };

    ghost given = { λ s. s.given };

    /// Gives the next link. It doesn't wait, and fails exactly where none is left.
    fn accept<R: Wait>(&mut self, _rt: &R) -> Result<MemLink, Failed>
        // What each port does.
        ensures given { CountsGiven self.old.given self.new.given result }
        ensures cause { HasCause self.old.faults self.new.faults (is_err result) }

        // What this one does.
        ensures fails { IsErr result ↔ (self.old.left ≡ []) }
        ensures first { IfOk result (λ link. self.old.left ≡ link ∷ self.new.left) }
        ensures none { OnErr result (self.new.left ≡ []) }
    {
        match self.links.pop_front() {
            Some(link) => {
                self.given.rise();
                Ok(link)
            }
            None => {
                self.faults.rise();
                Err(Failed)
            }
        }
    }
}
