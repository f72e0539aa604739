ghost use Rattle.std.specs.Prelude.{◌≡◌};

use outside::Failed;
use outside_serving::{Count, Entropy};
use std::marker::Model;
use std::random::RandomSource;

/// Words from one of std's sources of random bytes.
#[derive(Drop)]
pub struct EntropyOver<S: Drop> {
    source: S,
    faults: Count,
}

/// The system's random bytes (`getentropy`). What they are is not told.
pub type SystemEntropy = EntropyOver<HostRuntime>;

impl<S: Drop> Model for EntropyOver<S> {
    ghost use Rattle.std.specs.Prelude.{None};
    ghost use Rattle.outside_serving.specs.Words.{Pool};

    ghost Value = { Pool };

    ghost view = { λ s. record { words = None; faults = s.faults } };
}

impl<S: RandomSource + Drop> EntropyOver<S> {
    /// Words from this source, of which none was drawn yet.
    pub fn new(source: S) -> EntropyOver<S>
        ensures { result.faults ≡ 0 }
    {
        EntropyOver {
            source,
            faults: Count::zero(),
        }
    }
}

impl<S: RandomSource + Copy + Drop> Entropy for EntropyOver<S> {
    ghost pool = { λ s. s };

    fn fill(&mut self, out: &mut [u8; 16]) -> Result<(), Failed> {
        let filled = self.source.fill_bytes(out);
        if filled.is_err() {
            self.faults.rise();
        }
        Ok(filled?)
    }

    fn another(&self) -> EntropyOver<S> {
        EntropyOver::new(self.source)
    }
}
