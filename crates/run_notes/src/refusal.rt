//! Refusals.
ghost use Rattle.std.specs.Prelude.{◌≡◌};

use crate::measure::Measure;
use corr_model::Cell;
use job_join::JoinFault;
use job_text::JobFault;
use journal_image::Differs;
use num_time::Name;
use pulsar_bins::BinsFault;
use run_words::WordsFault;
use std::alloc::AllocError;
use vdif_frame::Field;
use vex_reader::VexFault;
use vex_schedule::SchedFault;
use vis_records::VisFault;

/// A verdict on the files that a call was given: the first thing that is wrong with them.
#[derive(Debug, Drop)]
pub enum Due {
    /// The schedule's text is no VEX file.
    Vex(VexFault),
    /// The VEX file has no schedule.
    Schedule(SchedFault),
    /// The job's text has no job.
    Job(JobFault),
    /// Job and schedule do not go together: the cause, and the name of the take, station or scan.
    Join(JoinFault, Name),
    /// A measure is past its greatest: its value.
    Limit(Measure, u128),
    /// A named file is not on the shelf.
    NoFile(Name),
    /// A station's recording has slots, and none of them agrees with its shape: the station's key, and the field in which
    /// the first one differs.
    Recording(Name, Field),
    /// The file that is read as a record file is none.
    Records(VisFault),
    /// The text is not a right certificate of the record file: the byte with which its first wrong line begins, or its length
    /// where a line is missing.
    Certificate(u64),
    /// The text of a pulse's phase has no bins.
    Bins(BinsFault),
    /// A scan of this name has a sample at which the pulse has no phase.
    NoPhase(Name),
    /// The file of this name is no journal of a part of the job: the byte at which it differs.
    NotShard(Name, u64),
    /// No journal covers the integration of this number.
    Uncovered(u64),
    /// Two journals that cover an integration have different cells in it: the number of the integration, of the group (product by
    /// product, then baseline) and the lag, the cell in the first journal and the cell in the other.
    Differs {
        integration: u64,
        group: u32,
        lag: i32,
        first: Cell,
        other: Cell,
    },
}

/// Why a call did not do what it was asked for.
#[derive(Debug, Drop)]
pub enum Refusal {
    /// Out of memory.
    Memory,
    /// The words are not a command's.
    Words(WordsFault),
    /// The files are not accepted.
    Due(Due),
    /// The journal is neither blank nor one of this job: where it differs.
    Other(Differs),
    /// A read of the shelf failed.
    Read,
    /// A call of the journal's disk failed: the number of epochs that are kept, once it is known.
    Journal(Option<u64>),
    /// A write to the output failed.
    Write,
}

impl From<AllocError> for Refusal {
    ghost use Rattle.run_notes.specs.declared.refusal.Refusal.TheVariants.{Memory};

    ghost from_gives = { λ _ refusal. refusal ≡ Memory };

    fn from(_: AllocError) -> Self {
        Refusal::Memory
    }
}

impl From<Due> for Refusal {
    ghost use Rattle.run_notes.specs.declared.refusal.Refusal.TheVariants.{Due};

    ghost from_gives = { λ due refusal. refusal ≡ Due due };

    fn from(due: Due) -> Self {
        Refusal::Due(due)
    }
}
