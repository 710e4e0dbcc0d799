//! A quorum that stands in the journal's table.
ghost use Rattle.std.specs.Prelude.{◌≡◌, IfOk};
ghost use Rattle.wire.specs.Views.{quorum_of};
ghost use Rattle.journal.specs.Table.{row_of};

use std::alloc::{AllocError, Global};
use wire::key::Bytes32;
use wire::quorum::Quorum;

#[derive(Drop)]
pub struct Row {
    pub(crate) threshold: u8,
    pub(crate) keys: Vec<Bytes32>,
}

impl Row {
    pub fn copy(heap: Global, quorum: Quorum<'_>) -> Result<Row, AllocError>
        ensures { IfOk result (λ v. row_of v ≡ quorum_of quorum.entry) }
    {
        let keys = Vec::from_slice(heap, quorum.keys)?;
        Ok(Row {
            threshold: quorum.threshold,
            keys,
        })
    }

    pub fn quorum(&self) -> Quorum<'_>
        ensures { quorum_of result ≡ row_of self.now }
    {
        Quorum {
            threshold: self.threshold,
            keys: &self.keys,
        }
    }
}
