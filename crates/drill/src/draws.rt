ghost use Rattle.std.specs.Prelude.{◌≡◌, ◌<◌, ◌≤◌};
ghost use Rattle.drill.specs.Draws.{next, drawn, taker, level_at, cert_from};

use trust_types::{AccountNo, Cert, Level};

/// How many accounts there are.
pub const ACCOUNTS: u32 = 2_000;

/// What follows the bits that a draw drops.
const DROPPED: u64 = 8_589_934_592;

/// Numbers that are drawn one after another.
#[derive(Drop)]
pub struct Draws {
    state: u64,
}

impl Draws {
    /// The draws of a number, of which none was made.
    pub fn of(number: u32) -> Draws
        ensures { result.state ≡ number }
    {
        Draws {
            state: number as u64,
        }
    }

    /// Draws a number below another.
    fn below(&mut self, most: u32) -> u32
        requires { 0 < most }
        ensures drawn { result ≡ drawn most self.new.state }
        ensures next { self.new.state ≡ next self.old.state }
        ensures below { result < most }
    {
        self.state = self
            .state
            .wrapping_mul(6_364_136_223_846_793_005)
            .wrapping_add(1_442_695_040_888_963_407);
        (self.state / DROPPED % most as u64) as u32
    }

    /// Draws a certificate.
    pub fn cert(&mut self) -> Cert
        ensures cert { result ≡ cert_from self.old.state }
        ensures next { self.new.state ≡ next (next (next self.old.state)) }
    {
        let from = self.below(ACCOUNTS);
        let drawn = self.below(ACCOUNTS);
        let level = self.below(3);
        Cert {
            from: AccountNo(from),
            to: AccountNo(taker(from, drawn)),
            level: level_at(level),
        }
    }
}

fn taker(giver: u32, drawn: u32) -> u32
    requires { giver < ACCOUNTS }
    ensures { result ≡ taker giver drawn }
{
    if giver == drawn {
        (giver + 1) % ACCOUNTS
    } else {
        drawn
    }
}

fn level_at(place: u32) -> Level
    ensures { result ≡ level_at place }
{
    match place {
        0 => Level::Apprentice,
        1 => Level::Journeyer,
        _ => Level::Master,
    }
}
