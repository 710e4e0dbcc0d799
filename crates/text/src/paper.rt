//! The text of papers.
ghost use Rattle.std.specs.Prelude.{◌≡◌, ◌++◌, IfOk, OnOk};
ghost use Rattle.std.specs.List.{flat_map};
ghost use Rattle.wire.specs.Views.{quorum_of};
ghost use Rattle.metadata.specs.Views.{root_of, timestamp_of, meta_of, metas_of, snapshot_of, file_of, files_of, delegation_of, delegations_of, targets_of, metadata_of};
ghost use Rattle.text.specs.Texts.{key_text, quorum_text, head_text, root_text, timestamp_text, meta_text, snapshot_text, file_text, last_text, delegation_text, targets_text, paper_text};

use line::writer::{write_bytes, write_number, write_steps, write_word};
use metadata::paper::Metadata;
use metadata::root::Root;
use metadata::snapshot::{Meta, Metas, Snapshot};
use metadata::targets::{Delegation, Delegations, File, Files, Targets};
use metadata::timestamp::Timestamp;
use std::alloc::{AllocError, Global};
use wire::key::Bytes32;
use wire::quorum::Quorum;
use wire::table::Table;

/// A text that grows line by line.
type Text = Vec<u8>;

fn write_keys(out: &mut Text, keys: &[Bytes32]) -> Result<(), AllocError>
    ensures { OnOk result (out.new.items ≡ out.old.items ++ flat_map key_text keys.now) }
{
    for key in keys {
        write_bytes(out, b"key", key)?;
    }
    Ok(())
}

fn write_quorum(out: &mut Text, word: &[u8], quorum: Quorum<'_>) -> Result<(), AllocError>
    ensures { OnOk result (out.new.items ≡ out.old.items ++ quorum_text word.now (quorum_of quorum.entry)) }
{
    write_number(out, word, quorum.keys.len() as u64)?;
    write_number(out, b"asked", u64::from(quorum.threshold))?;
    write_keys(out, quorum.keys)?;
    Ok(())
}

fn write_head(out: &mut Text, version: u32, expires: u32) -> Result<(), AllocError>
    ensures { OnOk result (out.new.items ≡ out.old.items ++ head_text version expires) }
{
    write_number(out, b"number", u64::from(version))?;
    write_number(out, b"last day", u64::from(expires))?;
    Ok(())
}

fn write_root(out: &mut Text, root: Root<'_>) -> Result<(), AllocError>
    ensures { OnOk result (out.new.items ≡ out.old.items ++ root_text (root_of root.entry)) }
{
    write_word(out, b"root")?;
    write_head(out, root.version, root.expires)?;
    write_quorum(out, b"root keys", root.root)?;
    write_quorum(out, b"clock keys", root.timestamp)?;
    write_quorum(out, b"index keys", root.snapshot)?;
    write_quorum(out, b"top keys", root.top)?;
    Ok(())
}

fn write_timestamp(out: &mut Text, timestamp: Timestamp<'_>) -> Result<(), AllocError>
    ensures { OnOk result (out.new.items ≡ out.old.items ++ timestamp_text (timestamp_of timestamp.entry)) }
{
    write_word(out, b"clock")?;
    write_head(out, timestamp.version, timestamp.expires)?;
    write_number(out, b"index", u64::from(timestamp.snapshot))?;
    write_bytes(out, b"digest", timestamp.digest)?;
    Ok(())
}

fn write_last(out: &mut Text, terminating: bool) -> Result<(), AllocError>
    ensures { OnOk result (out.new.items ≡ out.old.items ++ last_text terminating) }
{
    if terminating {
        write_word(out, b"last yes")
    } else {
        write_word(out, b"last no")
    }
}

fn write_meta(out: &mut Text, meta: Meta) -> Result<(), AllocError>
    ensures { OnOk result (out.new.items ≡ out.old.items ++ meta_text (meta_of meta)) }
{
    write_number(out, b"role", u64::from(meta.role))?;
    write_number(out, b"number", u64::from(meta.version))?;
    Ok(())
}

// Tried as one generic function for the three tables: their text would be a ghost member of a trait over `Kind`, and such a member cannot name
// the plain type of `Kind`, so no proof closes.
fn write_metas(out: &mut Text, metas: Table<'_, Metas>) -> Result<(), AllocError>
    ensures { OnOk result (out.new.items ≡ out.old.items ++ flat_map meta_text (metas_of metas.entry)) }
{
    for meta in metas {
        write_meta(out, meta)?;
    }
    Ok(())
}

fn write_file(out: &mut Text, file: File<'_>) -> Result<(), AllocError>
    ensures { OnOk result (out.new.items ≡ out.old.items ++ file_text (file_of file.entry)) }
{
    write_steps(out, b"file", file.path)?;
    write_number(out, b"size", file.size)?;
    write_bytes(out, b"digest", file.digest)?;
    Ok(())
}

fn write_files(out: &mut Text, files: Table<'_, Files>) -> Result<(), AllocError>
    ensures { OnOk result (out.new.items ≡ out.old.items ++ flat_map file_text (files_of files.entry)) }
{
    for file in files {
        write_file(out, file)?;
    }
    Ok(())
}

fn write_delegation(out: &mut Text, delegation: Delegation<'_>) -> Result<(), AllocError>
    ensures { OnOk result (out.new.items ≡ out.old.items ++ delegation_text (delegation_of delegation.entry)) }
{
    write_number(out, b"branch", u64::from(delegation.role))?;
    write_quorum(out, b"keys", delegation.quorum)?;
    write_steps(out, b"start", delegation.prefix)?;
    write_last(out, delegation.terminating)?;
    Ok(())
}

fn write_delegations(out: &mut Text, delegations: Table<'_, Delegations>) -> Result<(), AllocError>
    ensures { OnOk result (out.new.items ≡ out.old.items ++ flat_map delegation_text (delegations_of delegations.entry)) }
{
    for delegation in delegations {
        write_delegation(out, delegation)?;
    }
    Ok(())
}

fn write_snapshot(out: &mut Text, snapshot: Snapshot<'_>) -> Result<(), AllocError>
    ensures { OnOk result (out.new.items ≡ out.old.items ++ snapshot_text (snapshot_of snapshot.entry)) }
{
    write_word(out, b"index")?;
    write_head(out, snapshot.version, snapshot.expires)?;
    write_number(out, b"roles", u64::from(snapshot.metas.len()))?;
    write_metas(out, snapshot.metas)?;
    Ok(())
}

fn write_targets(out: &mut Text, targets: Targets<'_>) -> Result<(), AllocError>
    ensures { OnOk result (out.new.items ≡ out.old.items ++ targets_text (targets_of targets.entry)) }
{
    write_word(out, b"list")?;
    write_number(out, b"role", u64::from(targets.role))?;
    write_head(out, targets.version, targets.expires)?;
    write_number(out, b"files", u64::from(targets.files.len()))?;
    write_files(out, targets.files)?;
    write_number(out, b"branches", u64::from(targets.delegations.len()))?;
    write_delegations(out, targets.delegations)?;
    Ok(())
}

fn write_metadata(out: &mut Text, paper: Metadata<'_>) -> Result<(), AllocError>
    ensures { OnOk result (out.new.items ≡ out.old.items ++ paper_text (metadata_of paper.entry)) }
{
    match paper {
        Metadata::Root(root) => write_root(out, root),
        Metadata::Timestamp(timestamp) => write_timestamp(out, timestamp),
        Metadata::Snapshot(snapshot) => write_snapshot(out, snapshot),
        Metadata::Targets(targets) => write_targets(out, targets),
    }
}

/// The text of a paper.
pub fn text_of(heap: Global, paper: Metadata<'_>) -> Result<Vec<u8>, AllocError>
    ensures { IfOk result (λ v. v.items ≡ paper_text (metadata_of paper.entry)) }
{
    let mut out = Vec::new(heap);
    write_metadata(&mut out, paper)?;
    Ok(out)
}
