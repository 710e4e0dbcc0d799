//! Keys and digests as fixed byte strings.
ghost use Rattle.std.specs.Prelude.{◌≡◌};
ghost use Rattle.model.specs.Metadata.{Key};
ghost use Rattle.model.specs.Same.{same_list};
ghost use Rattle.wire.specs.Leaves.{below};
ghost use Rattle.wire.specs.Numbers.{block};

use crate::number::read_block;
use crate::table::Kind;
use model::fault::Fault;

/// The bytes of a key, or of a digest.
pub type Bytes32 = [u8; 32];

/// Whether two byte strings are the same: `==`, with the law's word for it, so that callers need no lemma.
pub fn same_bytes(a: &[u8], b: &[u8]) -> bool
    ensures { result ≡ same_list a.now b.now }
{
    a == b
}

/// Whether two keys, or two digests, are the same: `==` of fixed byte strings, with the law's word for it.
pub fn same_key(a: &Bytes32, b: &Bytes32) -> bool
    ensures { result ≡ same_list a.now b.now }
{
    *a == *b
}

/// Whether one key comes before another: `<`, with the format's word for it.
pub fn key_below(a: &Bytes32, b: &Bytes32) -> bool
    ensures { result ≡ below a.now b.now }
{
    a < b
}

/// Keys, in rising order.
#[derive(Clone, Copy)]
pub struct Keys;

impl<'a> Kind<'a> for Keys {
    type Item = &'a Bytes32;

    ghost Plain = { Key };

    ghost Key = { Key };

    ghost form = { block 32 };

    ghost plain = { λ k. k.now };

    ghost key = { λ k. k };

    ghost below = { below };

    fn read(bytes: &'a [u8]) -> Result<(&'a Bytes32, &'a [u8]), Fault> {
        read_block::<32>(bytes)
    }

    fn follows(item: &'a Bytes32, before: &'a Bytes32) -> bool {
        key_below(before, item)
    }
}
