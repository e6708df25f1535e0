//! What the commands say that look at a job: how many scans and epochs it has and the counts of each station's slots, how many
//! epochs its journal keeps, or that a part of it is summed. It stands on `ready_job` for the job, on `plan_places` for the number
//! of its epochs and on `sink_text` for the lines. No call takes memory.
#![tactic(auto)]

mod summary;

pub use summary::{write_check, write_kept, write_shard};
