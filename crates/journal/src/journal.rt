//! The journal's state.
ghost use Rattle.std.specs.Prelude.{◌≡◌, true};
ghost use Rattle.journal.specs.Table.{all_first, rows_of};

use crate::entry::Entry;
use crate::row::Row;

/// All that was taken, the oldest first. A quorum stands once, however many papers were taken under it, so that a scan of
/// the entries compares places and not keys.
#[derive(Drop)]
pub struct Journal {
    pub(crate) rows: Vec<Row>,
    pub(crate) entries: Vec<Entry>,
    ghost placed: { all_first (rows_of rows.items) entries.items ≡ true },
}
