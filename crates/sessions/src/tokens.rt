ghost use Rattle.std.specs.Cmp.{partial_equiv_from_equiv};
ghost use Rattle.std.specs.Cmp.Lexicographic.{nat_list_eq_equiv};
ghost use Rattle.std.specs.Cmp.Rules.{hashing};
ghost use Rattle.std.specs.Hash as fed;
ghost use Rattle.std.specs.Str.{bytes_eq};
ghost use Rattle.std.proofs.Common.{rules};

use std::hash::{Hash, Hasher};
use std::marker::Model;

/// What a browser shows to be known again: 128 bits, drawn at random by whoever lets it log in. Contracts see its bytes.
#[derive(Clone, Copy)]
pub struct Token(pub [u8; 16]);

impl Model for Token {
    ghost use Rattle.std.specs.Prelude.{ℕ, List};

    ghost Value = { List ℕ };

    ghost view = { λ token. token.0 };

    ghost inverse = { λ bytes. record { 0 = bytes } };
}

impl PartialEq for Token {
    ghost eq = { bytes_eq };

    ghost laws = { partial_equiv_from_equiv nat_list_eq_equiv };

    fn eq(&self, other: &Token) -> bool {
        self.0 == other.0
    }
}

impl Eq for Token {
    ghost laws = { nat_list_eq_equiv };
}

impl Hash for Token {
    ghost hash_input = { fed.slice fed.u8 };

    ghost respects_eq = { Prim.search (hashing, rules) };

    fn hash<H: Hasher>(&self, state: &mut H) {
        self.0.as_slice().hash(state);
    }
}
