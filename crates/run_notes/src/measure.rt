//! What has a greatest value.
ghost use Rattle.std.specs.Prelude.{◌≡◌};
ghost use Rattle.run_notes.specs.Measures.{measure_name};

use job_join::Quantity;

/// A measure that has a greatest value.
#[derive(Clone, Copy, Debug)]
pub enum Measure {
    /// A quantity of a job or of a file that a job's commands read.
    Job(Quantity),
    /// The bytes of a certificate.
    Certificate,
    /// The magnitudes of the real and imaginary parts of one lag in a record file, summed over the integrations of a scan.
    Amplitude,
    /// The bytes of a text of a pulse's phase.
    Phase,
    /// The cells of an integration, once for each bin of a pulse.
    BinCells,
    /// The number of the first integration behind a shard, of which the greatest is the number of integrations of the job.
    Shard,
}

impl Measure {
    /// The measure's name, in small letters.
    pub fn name(self) -> &'static str
        ensures { result.now ≡ measure_name self }
    {
        match self {
            Measure::Job(quantity) => quantity.name(),
            Measure::Certificate => "certificate",
            Measure::Amplitude => "amplitude",
            Measure::Phase => "phase",
            Measure::BinCells => "bincells",
            Measure::Shard => "shard",
        }
    }
}
