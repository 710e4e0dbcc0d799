//! The four papers.
ghost use Rattle.std.specs.Prelude.{◌≡◌, ℕ, List, ◌++◌, IfOk, Ok as Read, OnOk};
ghost use Rattle.std.specs.List.{flat_map};
ghost use Rattle.wire.specs.Formats.{Bytes};
ghost use Rattle.wire.specs.Tables.{items};
ghost use Rattle.metadata.specs.Papers.{root as root_f, timestamp as timestamp_f, snapshot as snapshot_f, targets as targets_f, bytes_of_paper, WellFormed, paper_in};
ghost use Rattle.metadata.specs.Views.{root_of, timestamp_of, snapshot_of, targets_of, metadata_of};

use encoding::leaf::{write_block, write_flag, write_number, write_quorum, write_steps};
use metadata::paper::Metadata;
use metadata::root::Root;
use metadata::snapshot::{Meta, Metas, Snapshot};
use metadata::targets::{Delegation, Delegations, File, Files, Targets};
use metadata::timestamp::Timestamp;
use std::alloc::{AllocError, Global};
use wire::table::{Kind, Table};

/// A kind of items that can be written.
pub trait Encode<'a>: Kind<'a> {
    /// Writes one behind what a vector holds.
    fn write(out: &mut Vec<u8>, item: Self::Item) -> Result<(), AllocError>
        ensures { OnOk result (out.new.items ≡ out.old.items ++ Self.form.write (Self.plain item)) };
}

impl<'a> Encode<'a> for Metas {
    fn write(out: &mut Vec<u8>, meta: Meta) -> Result<(), AllocError> {
        write_number(out, meta.role)?;
        write_number(out, meta.version)?;
        Ok(())
    }
}

impl<'a> Encode<'a> for Files {
    fn write(out: &mut Vec<u8>, file: File<'a>) -> Result<(), AllocError> {
        write_steps(out, file.path)?;
        write_number(out, file.size)?;
        write_block(out, file.digest)?;
        Ok(())
    }
}

impl<'a> Encode<'a> for Delegations {
    fn write(out: &mut Vec<u8>, delegation: Delegation<'a>) -> Result<(), AllocError> {
        write_number(out, delegation.role)?;
        write_quorum(out, delegation.quorum)?;
        write_steps(out, delegation.prefix)?;
        write_flag(out, delegation.terminating)?;
        Ok(())
    }
}

/// All items of a table, one behind the other.
pub fn write_table<'a, K: Encode<'a>>(
    out: &mut Vec<u8>,
    table: Table<'a, K>,
) -> Result<(), AllocError>
    ensures { OnOk result (out.new.items ≡ out.old.items ++ flat_map K.form.write (items K.form table.entry.count table.entry.bytes.now)) }
{
    for item in table {
        K::write(out, item)?;
    }
    Ok(())
}

/// A root, from behind its kind byte.
pub fn write_root(out: &mut Vec<u8>, root: Root<'_>) -> Result<(), AllocError>
    ensures { OnOk result (out.new.items ≡ out.old.items ++ root_f.write (root_of root.entry)) }
{
    write_number(out, root.version)?;
    write_number(out, root.expires)?;
    write_quorum(out, root.root)?;
    write_quorum(out, root.timestamp)?;
    write_quorum(out, root.snapshot)?;
    write_quorum(out, root.top)?;
    Ok(())
}

/// A timestamp, from behind its kind byte.
pub fn write_timestamp(out: &mut Vec<u8>, timestamp: Timestamp<'_>) -> Result<(), AllocError>
    ensures { OnOk result (out.new.items ≡ out.old.items ++ timestamp_f.write (timestamp_of timestamp.entry)) }
{
    write_number(out, timestamp.version)?;
    write_number(out, timestamp.expires)?;
    write_number(out, timestamp.snapshot)?;
    write_block(out, timestamp.digest)?;
    Ok(())
}

/// A snapshot, from behind its kind byte.
pub fn write_snapshot(out: &mut Vec<u8>, snapshot: Snapshot<'_>) -> Result<(), AllocError>
    ensures { OnOk result (out.new.items ≡ out.old.items ++ snapshot_f.write (snapshot_of snapshot.entry)) }
{
    write_number(out, snapshot.version)?;
    write_number(out, snapshot.expires)?;
    write_number(out, snapshot.metas.len())?;
    write_table(out, snapshot.metas)?;
    Ok(())
}

/// Targets, from behind their kind byte.
pub fn write_targets(out: &mut Vec<u8>, targets: Targets<'_>) -> Result<(), AllocError>
    ensures { OnOk result (out.new.items ≡ out.old.items ++ targets_f.write (targets_of targets.entry)) }
{
    write_number(out, targets.role)?;
    write_number(out, targets.version)?;
    write_number(out, targets.expires)?;
    write_number(out, targets.files.len())?;
    write_table(out, targets.files)?;
    write_number(out, targets.delegation_count())?;
    write_table(out, targets.delegations)?;
    Ok(())
}

/// A paper of any kind, behind its kind byte.
pub fn write_paper(out: &mut Vec<u8>, paper: Metadata<'_>) -> Result<(), AllocError>
    ensures { OnOk result (out.new.items ≡ out.old.items ++ bytes_of_paper (metadata_of paper.entry)) }
{
    match paper {
        Metadata::Root(root) => {
            write_number(out, 1u8)?;
            write_root(out, root)
        }
        Metadata::Timestamp(timestamp) => {
            write_number(out, 2u8)?;
            write_timestamp(out, timestamp)
        }
        Metadata::Snapshot(snapshot) => {
            write_number(out, 3u8)?;
            write_snapshot(out, snapshot)
        }
        Metadata::Targets(targets) => {
            write_number(out, 4u8)?;
            write_targets(out, targets)
        }
    }
}

/// The bytes of a paper: read, they give the paper back, and of a paper that was read they are the bytes that it was read from.
pub fn paper_bytes(heap: Global, paper: Metadata<'_>) -> Result<Vec<u8>, AllocError>
    ensures written { IfOk result (λ v. v.items ≡ bytes_of_paper (metadata_of paper.entry)) }
    ensures back { IfOk result (λ v. WellFormed (metadata_of paper.entry) → paper_in v.items ≡ Read (metadata_of paper.entry)) }
    ensures same { IfOk result (λ v. (bs : List ℕ) → Bytes bs → paper_in bs ≡ Read (metadata_of paper.entry) → v.items ≡ bs) }
{
    let mut out = Vec::new(heap);
    write_paper(&mut out, paper)?;
    Ok(out)
}
