//! A stand-in for a signature scheme, for programs, examples and tests. **Anybody can make its signatures: never for use in the field.**
ghost use Rattle.std.specs.Prelude.{◌≡◌, ◌++◌};
ghost use Rattle.digest.specs.Sha256.{sha256 as sha256_of};
ghost use Rattle.signature.specs.StandIn.{stand_in_signature, stand_in_accepts, stand_in_signed, AnybodySigns};
ghost use Rattle.model.proofs.Same.{bytes};

use crate::verifier::Verifier;
use digest::Sha256;
use wire::key::Bytes32;

/// The stand-in scheme. Its keys are no secrets, so that a key "signed" says nothing of who did.
#[derive(Clone, Copy)]
pub struct StandIn;

/// SHA-256 of two parts, joined.
fn digest_of(front: &[u8], back: &[u8]) -> [u8; 32]
    ensures { result ≡ sha256_of (front.now ++ back.now) }
{
    let mut running = Sha256::new();
    running.update(front);
    running.update(back);
    running.finish()
}

/// The stand-in's signature of a key under a message.
pub fn sign_stand_in(key: &Bytes32, message: &[u8]) -> [u8; 64]
    ensures { result ≡ stand_in_signature key.now message.now }
{
    let digest = digest_of(key, message);
    let seal = digest_of(&digest, key);
    let mut signature = [0; 64];
    signature[..32].copy_from_slice(&digest);
    signature[32..].copy_from_slice(&seal);
    signature
}

impl Verifier for StandIn {
    ghost accepts = { stand_in_accepts };

    ghost signed = { stand_in_signed };

    ghost sound = { λ k m s t. bytes.itself (stand_in_signature k m) };

    #[tactic(auto, using(crate::proofs::Among::bytes_equal))]
    fn check(&self, key: &Bytes32, message: &[u8], signature: &[u8; 64]) -> bool {
        signature == &sign_stand_in(key, message)
    }
}

/// Why the stand-in is not for use in the field: every key "signed" every message.
pub fn anybody_signs() -> u8
    ensures { AnybodySigns }
{
    0
}
