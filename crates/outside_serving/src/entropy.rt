ghost use Rattle.std.specs.Prelude.{◌≡◌, ◌↔◌, Some, [], IsErr, MatchResult, OnOk, OnErr};
ghost use Rattle.outside.specs.Calls.{IsToFail, no_calls};
ghost use Rattle.outside_serving.specs.Memory.{after_draw, after_failed_draw};
ghost use Rattle.outside_serving.specs.Words.{Pool, Drew, Missed};

use crate::calls::Calls;
use outside::Failed;
use std::alloc::Global;
use std::marker::Model;

/// Where words of 16 bytes that no one can guess come from.
pub trait Entropy: Drop {
    ghost use Rattle.outside_serving.specs.Words.{Pool};

    /// The words that are left to draw, where they are told, and how many calls failed. The count stands still at the last value of a `u64`.
    ghost pool: { Self → Pool };

    /// Draws the next word into `out`.
    ///
    /// # Errors
    /// [`Failed`] where the source had a fault, which is counted. No word is drawn then, and `out` may hold anything.
    fn fill(&mut self, out: &mut [u8; 16]) -> Result<(), Failed>
        ensures drew { MatchResult result (λ _. Drew (pool self.old) (pool self.new) out.new) (λ _. Missed (pool self.old) (pool self.new)) };

    /// Another source of words, with a count of its own from 0.
    fn another(&self) -> Self
        ensures { (pool result).faults ≡ 0 };
}

/// Words of a list, and then words of zeros. Some of its calls fail. Contracts see a `Deck`.
#[derive(Drop)]
pub struct ListEntropy {
    words: Vec<[u8; 16]>,
    at: usize,
    calls: Calls,
    alloc: Global,
}

impl Model for ListEntropy {
    ghost use Rattle.std.specs.Prelude.{drop};
    ghost use Rattle.outside_serving.specs.Memory.{Deck};

    ghost Value = { Deck };

    ghost view = { λ s. record { left = drop s.at s.words.items; calls = s.calls } };
}

impl ListEntropy {
    /// These words, in order. Its calls are numbered from 0, and those with a number in `fails` fail. It takes no memory.
    pub fn new(alloc: Global, words: Vec<[u8; 16]>, fails: Vec<u64>) -> ListEntropy
        ensures { result ≡ record { left = words.items; calls = no_calls fails.items } }
    {
        ListEntropy {
            words,
            at: 0,
            calls: Calls::new(fails),
            alloc,
        }
    }
}

impl Entropy for ListEntropy {
    ghost use Rattle.std.specs.Prelude.{Some};

    ghost pool = { λ s. record { words = Some s.left; faults = s.calls.faults } };

    /// Draws the next word. Where it fails, `out` is as it was.
    fn fill(&mut self, out: &mut [u8; 16]) -> Result<(), Failed>
        // What each source of words does.
        ensures drew { MatchResult result
            (λ _. Drew (record { words = Some self.old.left; faults = self.old.calls.faults }) (record { words = Some self.new.left; faults = self.new.calls.faults }) out.new)
            (λ _. Missed (record { words = Some self.old.left; faults = self.old.calls.faults }) (record { words = Some self.new.left; faults = self.new.calls.faults })) }

        // What this one does.
        ensures fails { IsErr result ↔ IsToFail self.old.calls }
        ensures ok { OnOk result (self.new ≡ after_draw self.old) }
        ensures err { OnErr result (self.new ≡ after_failed_draw self.old) }
        ensures kept { OnErr result (out.new ≡ out.old) }
    {
        self.calls.count(true)?;
        *out = match self.words.get(self.at) {
            Some(word) => *word,
            None => [0; 16],
        };
        self.at = self.at.saturating_add(1);
        Ok(())
    }

    /// No words but those of zeros, and no call that is to fail. It takes no memory.
    fn another(&self) -> ListEntropy
        // What each source of words does.
        ensures faults { result.calls.faults ≡ 0 }

        // What this one does.
        ensures none { result ≡ record { left = []; calls = no_calls [] } }
    {
        ListEntropy::new(self.alloc, Vec::new(self.alloc), Vec::new(self.alloc))
    }
}
