// SHA-256, as RFC 6234 defines it: the digest of a slice, and a running state for bytes that come in parts.
#![tactic(auto)]

ghost use Rattle.std.specs.Prelude.{◌≡◌};
ghost use Rattle.digest.specs.Constants.{ConstantsRight};
ghost use Rattle.digest.specs.Sha256.{PaddedWhole, sha256 as sha256_of};

mod block;
mod running;

pub use running::Sha256;

// The digest of a message that is at hand as a whole.
pub fn sha256(message: &[u8]) -> [u8; 32]
    ensures { result ≡ sha256_of message.now }
{
    let mut running = Sha256::new();
    running.update(message);
    running.finish()
}

// The tables of constants are the standard's: they come from the roots of the first primes.
pub fn constants_stand() -> u8
    ensures { ConstantsRight }
{
    0
}

// The padding ends a block: no byte of it is left over.
pub fn padding_stands() -> u8
    ensures { PaddedWhole }
{
    0
}
