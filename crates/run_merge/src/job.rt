//! Jobs with the journals of their parts.
use run_ready::Survey;
use shard_merge::Shard;

/// A job that was surveyed, and the journals of its parts, each with the places of what it keeps.
#[derive(Drop)]
pub(crate) struct MergeJob {
    pub(crate) survey: Survey,
    pub(crate) shards: Vec<Shard>,
}
