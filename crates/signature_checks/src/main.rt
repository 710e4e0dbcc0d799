//! Prints a line for each check that counting makes, so that its output shows what is checked, and that nothing is checked twice.
#![tactic(auto)]

ghost use Rattle.std.specs.Prelude.{false};
ghost use Rattle.std.proofs.Common.{rules};

use signature::counting::Signed;
use signature::part::Signatures;
use signature::verifier::Verifier;
use wire::key::Bytes32;
use wire::quorum::Quorum;

/// Refuses every signature, and prints which one it was.
#[derive(Clone, Copy)]
struct Loud {
    rt: HostRuntime,
}

impl Verifier for Loud {
    ghost accepts = { λ key message signature. false };

    ghost signed = { λ key message. false };

    ghost sound = { Prim.search rules };

    fn check(&self, key: &Bytes32, message: &[u8], signature: &[u8; 64]) -> bool {
        let rt = self.rt;
        let _ = println!(rt; "checked: key {}, signature {}", key[0], signature[0]);
        false
    }
}

fn main(rt: HostRuntime) -> anyhow::Result<()> {
    let quorum = Quorum {
        threshold: 1,
        keys: &[[1; 32], [2; 32], [2; 32]],
    };
    let loud = Loud { rt };
    let signed = |signatures| Signed {
        verifier: &loud,
        message: b"paper",
        signatures,
    };
    let same = Signatures {
        items: &[[1; 96]; 255],
    };
    println!(rt; "one wrong signature 255 times")?;
    let _ = signed(same).is_enough(quorum);
    let mixed = Signatures {
        items: &[[3; 96], [2; 96], [3; 96], [1; 96], [2; 96]],
    };
    println!(rt; "signatures of two keys, and of another")?;
    let _ = signed(mixed).is_enough(quorum);
    Ok(())
}
