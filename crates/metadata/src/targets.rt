//! Targets: a role's files, and the roles that it delegates to.
ghost use Rattle.std.specs.Prelude.{◌≡◌, ◌<◌, true, length};
ghost use Rattle.wire.specs.Formats.{Reads};
ghost use Rattle.wire.specs.Leaves.{below};
ghost use Rattle.metadata.specs.Papers.{file as file_f, delegation as delegation_f, targets as targets_f};
ghost use Rattle.metadata.specs.Views.{file_of, delegation_of, delegations_of, targets_of};
ghost use Rattle.model.specs.Metadata.{Steps, File as AFile, Delegation as ADelegation};

pub use crate::contents::Targets;
use model::fault::Fault;
use wire::key::Bytes32;
use wire::number::{read_block, read_number, read_version};
use wire::path::{Step, path_below, read_flag, read_steps};
use wire::quorum::{Quorum, read_quorum};
use wire::table::{Kind, Table};

/// A file that may be installed.
#[derive(Clone, Copy)]
pub struct File<'a> {
    pub path: &'a [Step],
    pub size: u64,
    pub digest: &'a Bytes32,
}

/// Files, in rising order of their paths.
#[derive(Clone, Copy)]
pub struct Files;

/// A role that may speak for paths that begin with a prefix.
#[derive(Clone, Copy)]
pub struct Delegation<'a> {
    pub role: u16,
    pub quorum: Quorum<'a>,
    pub prefix: &'a [Step],
    pub terminating: bool,
}

/// Delegations, in any order.
#[derive(Clone, Copy)]
pub struct Delegations;

impl Targets<'_> {
    /// How many delegations there are: their number is a byte in the format.
    pub fn delegation_count(self) -> u8
        ensures { result ≡ length (delegations_of self.entry.delegations) }
    {
        self.delegations.len() as u8
    }
}

/// The most files and delegations of one role, and the largest file.
const MOST_FILES: u16 = 256;

const MOST_DELEGATIONS: u8 = 32;

const LARGEST: u64 = 1099511627776;

impl<'a> Kind<'a> for Files {
    type Item = File<'a>;

    ghost Plain = { AFile };

    ghost Key = { Steps };

    ghost form = { file_f };

    ghost plain = { file_of };

    ghost key = { λ f. f.path };

    ghost below = { below };

    fn read(bytes: &'a [u8]) -> Result<(File<'a>, &'a [u8]), Fault> {
        let (path, rest) = read_steps::<1>(bytes)?;
        let (size, rest) = read_number(rest)?;
        if size > LARGEST {
            return Err(Fault::OutOfRange);
        }
        let (digest, rest) = read_block(rest)?;
        Ok((File { path, size, digest }, rest))
    }

    fn follows(item: File<'a>, before: File<'a>) -> bool {
        path_below(before.path, item.path)
    }
}

impl<'a> Kind<'a> for Delegations {
    type Item = Delegation<'a>;

    ghost Plain = { ADelegation };

    ghost Key = { ADelegation };

    ghost form = { delegation_f };

    ghost plain = { delegation_of };

    ghost key = { λ d. d };

    ghost below = { λ _ _. true };

    fn read(bytes: &'a [u8]) -> Result<(Delegation<'a>, &'a [u8]), Fault> {
        let (role, rest) = read_number(bytes)?;
        let (quorum, rest) = read_quorum(rest)?;
        let (prefix, rest) = read_steps::<0>(rest)?;
        let (terminating, rest) = read_flag(rest)?;
        let read = Delegation {
            role,
            quorum,
            prefix,
            terminating,
        };
        Ok((read, rest))
    }

    fn follows(_item: Delegation<'a>, _before: Delegation<'a>) -> bool {
        true
    }
}

/// Targets, from behind their kind byte.
pub fn read_targets(bytes: &[u8]) -> Result<(Targets<'_>, &[u8]), Fault>
    ensures { Reads targets_of result (targets_f.read bytes.now) }
{
    let (role, rest) = read_number(bytes)?;
    let (version, rest) = read_version(rest)?;
    let (expires, rest) = read_number::<u32, 4>(rest)?;
    let (count, rest) = read_number(rest)?;
    if count > MOST_FILES {
        return Err(Fault::OutOfRange);
    }
    let (files, rest) = Table::read(rest, count)?;
    let (count, rest) = read_number::<u8, 1>(rest)?;
    if count > MOST_DELEGATIONS {
        return Err(Fault::OutOfRange);
    }
    let (delegations, rest) = Table::read(rest, u16::from(count))?;
    let read = Targets {
        role,
        version,
        expires,
        files,
        delegations,
    };
    Ok((read, rest))
}
