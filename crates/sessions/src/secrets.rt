ghost use Rattle.std.specs.Prelude.{◌≡◌};
ghost use Rattle.std.specs.Str.{bytes_eq};
ghost use Rattle.trust_types.specs.declared.records.Secret.TheVariants.{Digest as Kept};
ghost use Rattle.sessions.specs.Secrets.{digest_of, is_proof};

use sha2::{Digest, Sha256};
use trust_types::{Name, Secret};

/// What is kept of an account's password: the SHA-256 digest (FIPS 180-4) of the name's bytes, a colon and the password's bytes.
pub fn secret_of(name: &Name, password: &str) -> Secret
    ensures { result ≡ Kept (digest_of name.now password.now) }
{
    let mut hasher = Sha256::new();
    hasher.update(name.bytes());
    hasher.update(b":");
    hasher.update(password);
    Secret::Digest(hasher.finalize())
}

/// Whether this is the digest that was kept. It takes the same time wherever the two differ.
pub(crate) fn is_proof(kept: &Secret, proof: &[u8; 32]) -> bool
    ensures { result ≡ is_proof kept.now proof.now }
{
    match kept {
        Secret::Absent => false,
        Secret::Digest(digest) => is_same(digest, proof),
    }
}

/// Whether two digests are the same. It looks at each byte of both.
fn is_same(kept: &[u8; 32], proof: &[u8; 32]) -> bool
    ensures { result ≡ bytes_eq kept.now proof.now }
{
    let mut same = true;
    for (a, b) in kept.iter().zip(proof.iter()) {
        same &= a == b;
    }
    same
}
