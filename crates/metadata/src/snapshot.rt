//! Snapshots: which version of each role's targets is the newest.
ghost use Rattle.std.specs.Prelude.{◌≡◌, ℕ, nat_lt};
ghost use Rattle.wire.specs.Formats.{Reads};
ghost use Rattle.metadata.specs.Papers.{meta as meta_f, snapshot as snapshot_f};
ghost use Rattle.metadata.specs.Views.{meta_of, snapshot_of};
ghost use Rattle.model.specs.Metadata.{Meta as AMeta};

use model::fault::Fault;
use wire::number::{read_number, read_version};
use wire::table::{Kind, Table};

/// The version of a role's targets.
#[derive(Clone, Copy)]
pub struct Meta {
    pub role: u16,
    pub version: u32,
}

/// Versions, in rising order of their roles.
#[derive(Clone, Copy)]
pub struct Metas;

#[derive(Clone, Copy)]
pub struct Snapshot<'a> {
    pub version: u32,
    pub expires: u32,
    pub metas: Table<'a, Metas>,
}

/// The most roles that a snapshot lists.
const MOST_ROLES: u16 = 64;

impl<'a> Kind<'a> for Metas {
    type Item = Meta;

    ghost Plain = { AMeta };

    ghost Key = { ℕ };

    ghost form = { meta_f };

    ghost plain = { meta_of };

    ghost key = { λ m. m.role };

    ghost below = { nat_lt };

    fn read(bytes: &'a [u8]) -> Result<(Meta, &'a [u8]), Fault> {
        let (role, rest) = read_number(bytes)?;
        let (version, rest) = read_version(rest)?;
        Ok((Meta { role, version }, rest))
    }

    fn follows(item: Meta, before: Meta) -> bool {
        before.role < item.role
    }
}

/// A snapshot, from behind its kind byte.
pub fn read_snapshot(bytes: &[u8]) -> Result<(Snapshot<'_>, &[u8]), Fault>
    ensures { Reads snapshot_of result (snapshot_f.read bytes.now) }
{
    let (version, rest) = read_version(bytes)?;
    let (expires, rest) = read_number(rest)?;
    let (count, rest) = read_number(rest)?;
    if count > MOST_ROLES {
        return Err(Fault::OutOfRange);
    }
    let (metas, rest) = Table::read(rest, count)?;
    let read = Snapshot {
        version,
        expires,
        metas,
    };
    Ok((read, rest))
}
