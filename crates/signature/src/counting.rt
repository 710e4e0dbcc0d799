//! Which keys of a quorum have a right signature, and whether they are enough.
ghost use Rattle.std.specs.Prelude.{◌≡◌, not, ◌&&◌, T, map, length, vec_len, IfOk, if◌then◌else◌, None, nat_le};
ghost use Rattle.std.specs.Option.{option_map};
ghost use Rattle.model.specs.Lists.{first};
ghost use Rattle.model.specs.Quorums.{is_in, counted, enough as enough_of};
ghost use Rattle.wire.specs.Views.{quorum_of};
ghost use Rattle.signature.specs.Counting.{Chosen, AllSigned, Backed, OneKeyOnce};
ghost use Rattle.signature.specs.Signatures.{right_of, signers_in};
ghost use Rattle.signature.specs.Views.{signature_of, signatures_of};

use crate::part::{Signature, Signatures, key_and_bytes};
use crate::verifier::Verifier;
use std::alloc::{AllocError, Global};
use wire::key::{Bytes32, same_key};
use wire::quorum::Quorum;

/// A message, the signatures that came with it, and the scheme that checks them.
#[derive_where(Clone, Copy)]
pub struct Signed<'a, V> {
    pub verifier: &'a V,
    pub message: &'a [u8],
    pub signatures: Signatures<'a>,
}

/// A copy of one right signature for each key of a quorum that has any, in the order of the keys, and how many the quorum asks for.
#[derive(Drop)]
pub struct Counted {
    pub signatures: Vec<Signature>,
    pub threshold: u8,
}

/// Whether so many keys are as many as a quorum asks for.
fn reaches(threshold: u8, keys: usize) -> bool
    ensures { result ≡ nat_le threshold keys }
{
    keys >= threshold as usize
}

impl Counted {
    /// Whether the keys counted are as many as the quorum asks for.
    pub fn is_enough(&self) -> bool
        ensures { result ≡ nat_le self.now.threshold (vec_len self.now.signatures) }
    {
        reaches(self.threshold, self.signatures.len())
    }
}

impl<'a, V: Verifier> Signed<'a, V> {
    /// Whether a signature is a right one of this key, and none of those before it.
    #[tactic(auto, using(crate::proofs::Among::among))]
    fn is_new_and_right(&self, key: &Bytes32, signature: &Signature, earlier: &[Signature]) -> bool
        ensures { result ≡ (right_of V.accepts self.now.message.now key.now (signature_of signature.now) && not (is_in signature.now earlier.now)) }
    {
        let (signer, bytes) = key_and_bytes(signature);
        same_key(key, signer)
            && !earlier.contains(signature)
            && self.verifier.check(signer, self.message, bytes)
    }

    /// The first right signature of a key. One that stands there again was wrong before, so it is not checked twice.
    fn first_right(&self, key: &Bytes32) -> Option<&'a Signature>
        ensures { option_map (λ s. signature_of s.now) result ≡ first (right_of V.accepts self.now.message.now key.now) (signatures_of self.now.signatures) }
    {
        // A loop, as in `count_keys`; the number of each is needed for those before it.
        let items = self.signatures.items;
        for (i, signature) in items.iter().enumerate() {
            if self.is_new_and_right(key, signature, &items[..i]) {
                return Some(signature);
            }
        }
        None
    }

    /// What counts for a key: its first right signature, unless the key comes again among the later ones.
    #[tactic(auto, using(crate::proofs::Among::among))]
    fn counts_for(&self, key: &Bytes32, later: &[Bytes32]) -> Option<&'a Signature>
        ensures { option_map (λ s. signature_of s.now) result ≡ (if is_in key.now later.now then None else first (right_of V.accepts self.now.message.now key.now) (signatures_of self.now.signatures)) }
    {
        if later.contains(key) {
            return None;
        }
        self.first_right(key)
    }

    /// The first right signature of each key of the quorum that has one.
    fn right_signatures(
        &self,
        heap: Global,
        quorum: Quorum<'_>,
    ) -> Result<Vec<Signature>, AllocError>
        ensures { IfOk result (λ v. Chosen V.accepts self.now.message.now (quorum_of quorum.entry) (signatures_of self.now.signatures) (map signature_of v.items)) }
    {
        let mut right = Vec::new(heap);
        for (i, key) in quorum.keys.iter().enumerate() {
            if let Some(signature) = self.counts_for(key, &quorum.keys[i + 1..]) {
                right.push(*signature)?;
            }
        }
        Ok(right)
    }

    /// How many keys of the quorum have a right signature.
    fn count_keys(&self, quorum: Quorum<'_>) -> usize
        ensures { result ≡ length (counted (quorum_of quorum.entry) (signers_in V.accepts self.now.message.now (signatures_of self.now.signatures))) }
    {
        // A loop: as a chain of a generic function, its proof did not close.
        let mut count = 0;
        for (i, key) in quorum.keys.iter().enumerate() {
            if self.counts_for(key, &quorum.keys[i + 1..]).is_some() {
                count += 1;
            }
        }
        count
    }

    /// The keys of the quorum that have a right signature under the message, each with its first one.
    /// The only error is want of memory.
    pub fn count(&self, heap: Global, quorum: Quorum<'_>) -> Result<Counted, AllocError>
        ensures chosen { IfOk result (λ c. Chosen V.accepts self.now.message.now (quorum_of quorum.entry) (signatures_of self.now.signatures) (map signature_of c.signatures.items)) }
        ensures asked { IfOk result (λ c. c.threshold ≡ quorum.entry.threshold) }
        ensures answer { IfOk result (λ c. nat_le c.threshold (vec_len c.signatures) ≡ enough_of (quorum_of quorum.entry) (signers_in V.accepts self.now.message.now (signatures_of self.now.signatures))) }
        ensures backed { IfOk result (λ c. AllSigned V.signed self.now.message.now (map signature_of c.signatures.items)) }
    {
        let signatures = self.right_signatures(heap, quorum)?;
        Ok(Counted {
            signatures,
            threshold: quorum.threshold,
        })
    }

    /// Whether enough keys of the quorum have a right signature under the message; it needs no memory.
    pub fn is_enough(&self, quorum: Quorum<'_>) -> bool
        ensures answer { result ≡ enough_of (quorum_of quorum.entry) (signers_in V.accepts self.now.message.now (signatures_of self.now.signatures)) }
        ensures backed { T result → Backed V.signed self.now.message.now (quorum_of quorum.entry) }
    {
        reaches(quorum.threshold, self.count_keys(quorum))
    }
}

/// However often one key signs, it counts once.
pub fn one_key_stands() -> u8
    ensures { OneKeyOnce }
{
    0
}
