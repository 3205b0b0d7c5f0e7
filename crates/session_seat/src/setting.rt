//! What stands round a step.

use catalogue::Catalogue;
use pool_config::Config;
use std::alloc::Global;

/// What a step reads and does not change: the tables, the configuration, the moment.
#[derive(Clone, Copy)]
pub struct Setting<'a> {
    pub alloc: Global,
    pub tables: &'a Catalogue,
    pub config: &'a Config,
    /// Units: microseconds since 2000-01-01 00:00 UTC.
    pub moment: i64,
}
