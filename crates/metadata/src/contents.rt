//! What targets are. The struct stands apart from what is said of it, which names it.
ghost use Rattle.std.specs.Prelude.{◌<◌};

use crate::targets::{Delegations, Files};
use wire::table::Table;

#[derive(Clone, Copy)]
pub struct Targets<'a> {
    pub role: u16,
    pub version: u32,
    pub expires: u32,
    pub files: Table<'a, Files>,
    pub delegations: Table<'a, Delegations>,
    ghost few: { delegations.count < 256 },
}
