//! What a signature scheme has to do, and what may be concluded from its answers.
ghost use Rattle.std.specs.Prelude.{◌≡◌, ℕ, Bool, T, List};

use wire::key::Bytes32;

/// A signature scheme. `accepts` is what its check answers, `signed` which bytes were signed by who has the key;
/// the law `sound` is what the scheme is trusted for.
pub trait Verifier {
    ghost accepts: { List ℕ → List ℕ → List ℕ → Bool };

    ghost signed: { List ℕ → List ℕ → Bool };

    /// Whether this is a right signature of the key under the message.
    fn check(&self, key: &Bytes32, message: &[u8], signature: &[u8; 64]) -> bool
        ensures { result ≡ accepts key.now message.now signature.now };

    ghost sound: { (key message signature : List ℕ) → T (accepts key message signature) → T (signed key message) };
}
