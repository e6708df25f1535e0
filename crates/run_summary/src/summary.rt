//! Summaries.
ghost use Rattle.std.specs.Prelude.{◌≡◌, ◌++◌, ◌∷◌, [], ℕ, List, length, flat_map, decimal};
ghost use Rattle.corr_model.specs.Files.{Files};
ghost use Rattle.sink_text.specs.{Appends.{Appends}, Written.{Puts}};
ghost use Rattle.station_stream.specs.Recorded.{AreRecorded, AreNamed};
ghost use Rattle.run_summary.specs.{Lines.{PutsLines}, Summaries.{check_text, counts_line, numbered, kept_line, shard_line, station_line}};

use dev_traits::{Failed, Sink};
use frame_index::Counts;
use job_plan::StationPlan;
use plan_places::laws::{epochs_by_length_are_walk, walks_are_alone};
use plan_places::{left, start};
use ready_job::Ready;
use sink_text::{Piece, Stretch, append_pieces};
use station_stream::Recording;

/// Appends what a job and its recordings hold: the lines `scans N` and `epochs N`, with epochs of the length in force, and for each
/// station in order its key and the counts of its slots.
pub fn write_check<S: Sink>(ready: &Ready, out: &mut S) -> Result<(), Failed>
    ensures { (text : List ℕ) × Appends (S.told out.old) (S.told out.new) text (S.faults out.old) (S.faults out.new) result
        × ((files : Files) → AreRecorded files ready.now.plan.stations ready.now.recordings.items → text ≡ check_text ready.now.plan ready.now.epoch files) }
{
    epochs_by_length_are_walk();
    walks_are_alone();
    let plan = ready.plan.plan();
    let mut lines = Stretch::new();
    put_number("scans ", plan.scans.items().len() as u64, &mut lines, out);
    let epochs = left(&ready.epochs, start(&ready.epochs), ready.epoch);
    put_number("epochs ", epochs, &mut lines, out);
    put_stations(plan.stations.items(), &ready.recordings, &mut lines, out);
    lines.finish(out)
}

// Puts the line of a number behind its word.
fn put_number<S: Sink>(word: &str, number: u64, lines: &mut Stretch, out: &mut S)
    ensures { Puts (word.now ++ decimal number ++ 10 ∷ []) lines.old lines.new (S.told out.old) (S.told out.new) (S.faults out.old) (S.faults out.new) }
{
    lines.put_pieces(
        &[Piece::Text(word), Piece::Number(number), Piece::Text("\n")],
        out,
    );
}

// Puts each station's line.
fn put_stations<S: Sink>(
    stations: &[StationPlan],
    recordings: &[Recording],
    lines: &mut Stretch,
    out: &mut S,
)
    requires { AreNamed stations.now recordings.now }
    ensures { PutsLines stations.now recordings.now (λ files. flat_map (station_line files) stations.now)
        lines.old lines.new (S.told out.old) (S.told out.new) (S.faults out.old) (S.faults out.new) }
{
    for (i, station) in stations.iter().enumerate() {
        put_station(
            station.key.bytes(),
            &recordings[i].index.counts(),
            lines,
            out,
        );
    }
}

// Puts the line of a station.
fn put_station<S: Sink>(key: &[u8], counts: &Counts, lines: &mut Stretch, out: &mut S)
    ensures { Puts (counts_line key.now counts.now) lines.old lines.new (S.told out.old) (S.told out.new) (S.faults out.old) (S.faults out.new) }
{
    lines.put(b"station ", out);
    lines.put(key, out);
    put_count("slots", counts.slots, lines, out);
    put_count("doubled", counts.doubled, lines, out);
    put_count("invalid", counts.invalid, lines, out);
    put_count("foreign", counts.foreign, lines, out);
    put_count("late", counts.late, lines, out);
    lines.put(b"\n", out);
}

// Puts a word and a count, with a space before each.
fn put_count<S: Sink>(word: &str, count: u64, lines: &mut Stretch, out: &mut S)
    ensures { Puts (numbered word.now count) lines.old lines.new (S.told out.old) (S.told out.new) (S.faults out.old) (S.faults out.new) }
{
    lines.put_pieces(
        &[
            Piece::Text(" "),
            Piece::Text(word),
            Piece::Text(" "),
            Piece::Number(count),
        ],
        out,
    );
}

/// Appends how many of a job's epochs its journal keeps: `K of N epochs kept`.
pub fn write_kept<S: Sink>(kept: u64, epochs: u64, out: &mut S) -> Result<(), Failed>
    ensures { Appends (S.told out.old) (S.told out.new) (kept_line kept epochs) (S.faults out.old) (S.faults out.new) result }
{
    append_pieces(
        &[
            Piece::Number(kept),
            Piece::Text(" of "),
            Piece::Number(epochs),
            Piece::Text(" epochs kept\n"),
        ],
        out,
    )
}

/// Appends that a part of a job is summed, by the numbers of its first integration and of the one behind its last: `shard FROM TO
/// done`.
pub fn write_shard<S: Sink>(from: u64, to: u64, out: &mut S) -> Result<(), Failed>
    ensures { Appends (S.told out.old) (S.told out.new) (shard_line from to) (S.faults out.old) (S.faults out.new) result }
{
    append_pieces(
        &[
            Piece::Text("shard "),
            Piece::Number(from),
            Piece::Text(" "),
            Piece::Number(to),
            Piece::Text(" done\n"),
        ],
        out,
    )
}
