//! The digest of a network file, by which a journal is bound to it.
#![tactic(auto)]

ghost use Rattle.std.specs.Prelude.{◌≡◌};
ghost use Rattle.file_digest.specs.Digest.{digest};

use sha2::{Digest, Sha256};

/// The digest of these bytes.
pub fn digest_of(bytes: &[u8]) -> [u8; 32]
    ensures { result ≡ digest bytes.now }
{
    Sha256::digest(bytes)
}
