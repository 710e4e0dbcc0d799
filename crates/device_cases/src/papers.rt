//! What comes to a box, by its bytes.
use digest::sha256;
use encoding::leaf::{write_count, write_number};
use encoding_papers::paper::{Encode, paper_bytes};
use metadata::paper::Metadata;
use metadata::root::Root;
use metadata::snapshot::{Meta, Metas};
use metadata::targets::{Delegation, Delegations};
use metadata::timestamp::Timestamp;
use std::alloc::{AllocError, Global};
use wire::key::Bytes32;
use wire::quorum::Quorum;

/// The last day of each paper.
const LAST_DAY: u32 = 1;

/// Keys of roots and of timestamps, of which two are asked for.
pub const FIRST: &[Bytes32] = &[[1; 32], [2; 32], [3; 32]];

pub const SECOND: &[Bytes32] = &[[4; 32], [5; 32], [6; 32]];

/// The key of snapshots and of the targets of role 0.
pub const KEY: u8 = 9;

const KEYS: &[Bytes32] = &[[KEY; 32]];

/// A paper, or any bytes.
#[derive(Clone, Copy)]
pub enum Paper<'a> {
    /// The version, the keys of roots and those of timestamps.
    Root(u32, &'a [Bytes32], &'a [Bytes32]),
    /// The version, and the snapshot that is named: its version and its roles.
    Timestamp(u32, u32, &'a [(u16, u32)]),
    /// The version, and the roles with their versions.
    Snapshot(u32, &'a [(u16, u32)]),
    /// The role, the version, and the roles that it delegates to, with a key for each.
    Targets(u16, u32, &'a [(u16, u8)]),
    Bytes(&'a [u8]),
}

fn root<'a>(
    heap: Global,
    version: u32,
    keys: &'a [Bytes32],
    timestamp: &'a [Bytes32],
) -> Result<Vec<u8>, AllocError> {
    let one = Quorum {
        threshold: 1,
        keys: KEYS,
    };
    let paper = Root {
        version,
        expires: LAST_DAY,
        root: Quorum { threshold: 2, keys },
        timestamp: Quorum {
            threshold: 2,
            keys: timestamp,
        },
        snapshot: one,
        top: one,
    };
    paper_bytes(heap, Metadata::Root(paper))
}

fn timestamp(
    heap: Global,
    version: u32,
    snapshot: u32,
    digest: &Bytes32,
) -> Result<Vec<u8>, AllocError> {
    let paper = Timestamp {
        version,
        expires: LAST_DAY,
        snapshot,
        digest,
    };
    paper_bytes(heap, Metadata::Timestamp(paper))
}

fn snapshot(heap: Global, version: u32, roles: &[(u16, u32)]) -> Result<Vec<u8>, AllocError> {
    let mut out = Vec::new(heap);
    write_number(&mut out, 3u8)?;
    write_number(&mut out, version)?;
    write_number(&mut out, LAST_DAY)?;
    write_number(&mut out, (roles.len() % 65536) as u16)?;
    for (role, version) in roles {
        let meta = Meta {
            role: *role,
            version: *version,
        };
        Metas::write(&mut out, meta)?;
    }
    Ok(out)
}

/// Targets with no files.
fn targets(heap: Global, role: u16, version: u32, to: &[(u16, u8)]) -> Result<Vec<u8>, AllocError> {
    let mut out = Vec::new(heap);
    write_number(&mut out, 4u8)?;
    write_number(&mut out, role)?;
    write_number(&mut out, version)?;
    write_number(&mut out, LAST_DAY)?;
    write_number(&mut out, 0u16)?;
    write_count(&mut out, to.len())?;
    for (role, key) in to {
        let delegation = Delegation {
            role: *role,
            quorum: Quorum {
                threshold: 1,
                keys: &[[*key; 32]],
            },
            prefix: &[],
            terminating: false,
        };
        Delegations::write(&mut out, delegation)?;
    }
    Ok(out)
}

pub fn bytes_of(heap: Global, paper: Paper<'_>) -> Result<Vec<u8>, AllocError> {
    match paper {
        Paper::Root(version, keys, others) => root(heap, version, keys, others),
        Paper::Timestamp(version, number, roles) => {
            let named = snapshot(heap, number, roles)?;
            timestamp(heap, version, number, &sha256(&named))
        }
        Paper::Snapshot(version, roles) => snapshot(heap, version, roles),
        Paper::Targets(role, version, to) => targets(heap, role, version, to),
        Paper::Bytes(bytes) => Vec::from_slice(heap, bytes),
    }
}
