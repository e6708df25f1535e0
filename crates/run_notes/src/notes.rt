//! Statuses and notes.
ghost use Rattle.std.specs.Prelude.{◌≡◌, [], ◌∷◌, ◌++◌, codes, decimal};
ghost use Rattle.hex.specs.Hex.{encode_lower};
ghost use Rattle.sink_text.specs.{Appends.{Appends}, Pieces.{piece_text}, Written.{Puts}};
ghost use Rattle.run_notes.specs.{Refusals.{answer_of, due_answer}, Answers.{joined, words_answer, byte_or_none, other_answer, differs_answer, cell_text, place_text}};

use crate::refusal::{Due, Refusal};
use corr_model::Cell;
use dev_traits::{Failed, Sink};
use hex::encode_to_slice;
use journal_image::Differs;
use num_time::Name;
use run_words::WordsFault;
use sink_text::{Piece, Stretch, append_pieces};

/// The status that a call answers where it is refused so.
pub fn status(refusal: &Refusal) -> u8
    ensures { result ≡ (answer_of refusal.now).status }
{
    match refusal {
        Refusal::Memory => 1,
        Refusal::Words(_) => 2,
        Refusal::Due(due) => due_status(due),
        Refusal::Other(_) => 10,
        Refusal::Read => 7,
        Refusal::Journal(_) => 8,
        Refusal::Write => 9,
    }
}

// The status of what is wrong with the files.
fn due_status(due: &Due) -> u8
    ensures { result ≡ (due_answer due.now).status }
{
    match due {
        Due::Vex(_) | Due::Schedule(_) => 3,
        Due::Job(_) | Due::Join(_, _) => 4,
        Due::Recording(_, _) | Due::Records(_) => 5,
        Due::Limit(_, _) => 6,
        Due::NoFile(_) => 11,
        Due::Certificate(_) => 13,
        Due::Bins(_) | Due::NoPhase(_) => 12,
        Due::NotShard(_, _) | Due::Uncovered(_) | Due::Differs { .. } => 14,
    }
}

/// Writes a refusal's line to the notes. It takes no memory.
pub fn write_note<N: Sink>(refusal: &Refusal, notes: &mut N) -> Result<(), Failed>
    ensures { Appends (N.told notes.old) (N.told notes.new) (answer_of refusal.now).note (N.faults notes.old) (N.faults notes.new) result }
{
    match refusal {
        Refusal::Memory => append_pieces(&[Piece::Text("vlbi: out of memory\n")], notes),
        Refusal::Words(fault) => write_words(fault, notes),
        Refusal::Due(due) => write_due(due, notes),
        Refusal::Other(differs) => write_other(differs, notes),
        Refusal::Read => append_pieces(&[Piece::Text("vlbi: read fault\n")], notes),
        Refusal::Journal(None) => append_pieces(&[Piece::Text("vlbi: journal fault\n")], notes),
        Refusal::Journal(Some(kept)) => append_pieces(
            &[
                Piece::Text("vlbi: journal fault, "),
                Piece::Number(*kept),
                Piece::Text(" epochs kept\n"),
            ],
            notes,
        ),
        Refusal::Write => append_pieces(&[Piece::Text("vlbi: write fault\n")], notes),
    }
}

// Writes the line of words that are not a command's.
fn write_words<N: Sink>(fault: &WordsFault, notes: &mut N) -> Result<(), Failed>
    ensures { Appends (N.told notes.old) (N.told notes.new) (words_answer fault.now).note (N.faults notes.old) (N.faults notes.new) result }
{
    append_pieces(
        &[
            Piece::Text("vlbi: words: "),
            Piece::Text(fault.name()),
            Piece::Text("\n"),
        ],
        notes,
    )
}

// Writes the line of what is wrong with the files.
fn write_due<N: Sink>(due: &Due, notes: &mut N) -> Result<(), Failed>
    ensures { Appends (N.told notes.old) (N.told notes.new) (due_answer due.now).note (N.faults notes.old) (N.faults notes.new) result }
{
    match due {
        Due::Vex(fault) => write_at_byte("schedule: ", fault.kind.name(), fault.at, notes),
        Due::Schedule(fault) => write_at_byte("schedule: ", fault.kind.name(), fault.at, notes),
        Due::Job(fault) => write_in_line("job: ", fault.kind.name(), fault.line, notes),
        Due::Join(fault, name) => write_for("job: ", fault.name(), name, notes),
        Due::Limit(measure, value) => write_pair(
            "limit: ",
            measure.name().as_bytes(),
            " ",
            Piece::Wide(*value),
            notes,
        ),
        Due::NoFile(name) => append_pieces(
            &[
                Piece::Text("vlbi: no file "),
                Piece::Bytes(name.bytes()),
                Piece::Text("\n"),
            ],
            notes,
        ),
        Due::Recording(key, field) => write_pair(
            "recording: ",
            key.bytes(),
            " ",
            Piece::Text(field.name()),
            notes,
        ),
        Due::Records(fault) => write_at_byte("records: ", fault.kind.name(), fault.at, notes),
        Due::Certificate(at) => write_number("certificate at byte ", *at, notes),
        Due::Bins(fault) => write_in_line("bins: ", fault.kind.name(), fault.line, notes),
        Due::NoPhase(scan) => write_for("bins: ", "NoPhase", scan, notes),
        Due::NotShard(name, at) => write_pair(
            "merge: NotShard ",
            name.bytes(),
            " at byte ",
            Piece::Number(*at),
            notes,
        ),
        Due::Uncovered(integration) => write_number("merge: Uncovered ", *integration, notes),
        Due::Differs {
            integration,
            group,
            lag,
            first,
            other,
        } => write_differs(*integration, group, lag, first, other, notes),
    }
}

// Writes the line of a fault at a byte of a text.
fn write_at_byte<N: Sink>(text: &str, kind: &str, at: u64, notes: &mut N) -> Result<(), Failed>
    ensures { Appends (N.told notes.old) (N.told notes.new) (codes "vlbi: " ++ joined (text.now ∷ kind.now ∷ codes " at byte " ∷ decimal at ∷ [])) (N.faults notes.old) (N.faults notes.new) result }
{
    write_pair(text, kind.as_bytes(), " at byte ", Piece::Number(at), notes)
}

// Writes the line of a fault in a line of a text.
fn write_in_line<N: Sink>(text: &str, kind: &str, at: u32, notes: &mut N) -> Result<(), Failed>
    ensures { Appends (N.told notes.old) (N.told notes.new) (codes "vlbi: " ++ joined (text.now ∷ kind.now ∷ codes " in line " ∷ decimal at ∷ [])) (N.faults notes.old) (N.faults notes.new) result }
{
    write_pair(
        text,
        kind.as_bytes(),
        " in line ",
        Piece::Number(u64::from(at)),
        notes,
    )
}

// Writes the line of a fault for a name.
fn write_for<N: Sink>(text: &str, kind: &str, name: &Name, notes: &mut N) -> Result<(), Failed>
    ensures { Appends (N.told notes.old) (N.told notes.new) (codes "vlbi: " ++ joined (text.now ∷ kind.now ∷ codes " for " ∷ name.now ∷ [])) (N.faults notes.old) (N.faults notes.new) result }
{
    write_pair(
        text,
        kind.as_bytes(),
        " for ",
        Piece::Bytes(name.bytes()),
        notes,
    )
}

// Writes a line of two things, each behind a text.
fn write_pair<'a, N: Sink>(
    before: &'a str,
    first: &'a [u8],
    between: &'a str,
    second: Piece<'a>,
    notes: &mut N,
) -> Result<(), Failed>
    ensures { Appends (N.told notes.old) (N.told notes.new) (codes "vlbi: " ++ joined (before.now ∷ first.now ∷ between.now ∷ piece_text second.entry ∷ [])) (N.faults notes.old) (N.faults notes.new) result }
{
    append_pieces(
        &[
            Piece::Text("vlbi: "),
            Piece::Text(before),
            Piece::Bytes(first),
            Piece::Text(between),
            second,
            Piece::Text("\n"),
        ],
        notes,
    )
}

// Writes the line of a number.
fn write_number<N: Sink>(text: &str, number: u64, notes: &mut N) -> Result<(), Failed>
    ensures { Appends (N.told notes.old) (N.told notes.new) (codes "vlbi: " ++ joined (text.now ∷ decimal number ∷ [])) (N.faults notes.old) (N.faults notes.new) result }
{
    append_pieces(
        &[
            Piece::Text("vlbi: "),
            Piece::Text(text),
            Piece::Number(number),
            Piece::Text("\n"),
        ],
        notes,
    )
}

// Writes the line of two journals that differ in a cell.
fn write_differs<N: Sink>(
    integration: u64,
    group: &u32,
    lag: &i32,
    first: &Cell,
    other: &Cell,
    notes: &mut N,
) -> Result<(), Failed>
    ensures { Appends (N.told notes.old) (N.told notes.new) (differs_answer integration group.now lag.now first.now other.now).note (N.faults notes.old) (N.faults notes.new) result }
{
    let mut line = Stretch::new();
    put_place(
        integration,
        u64::from(*group),
        i64::from(*lag),
        &mut line,
        notes,
    );
    put_cell(first, &mut line, notes);
    put_cell(other, &mut line, notes);
    line.put(b"\n", notes);
    line.finish(notes)
}

// Puts the begin of that line: the integration, the group and the lag.
fn put_place<N: Sink>(integration: u64, group: u64, lag: i64, line: &mut Stretch, notes: &mut N)
    ensures { Puts (place_text integration group lag) line.old line.new (N.told notes.old) (N.told notes.new) (N.faults notes.old) (N.faults notes.new) }
{
    line.put_pieces(
        &[
            Piece::Text("vlbi: merge: Differs "),
            Piece::Number(integration),
            Piece::Text(" "),
            Piece::Number(group),
            Piece::Text(" "),
            Piece::Signed(lag),
        ],
        notes,
    );
}

// Puts the three numbers of a cell, each behind a space.
fn put_cell<N: Sink>(cell: &Cell, line: &mut Stretch, notes: &mut N)
    ensures { Puts (cell_text cell.now) line.old line.new (N.told notes.old) (N.told notes.new) (N.faults notes.old) (N.faults notes.new) }
{
    line.put_pieces(
        &[
            Piece::Text(" "),
            Piece::Signed(cell.re),
            Piece::Text(" "),
            Piece::Signed(cell.im),
            Piece::Text(" "),
            Piece::Number(cell.count),
        ],
        notes,
    );
}

// Writes the line of another job's journal.
fn write_other<N: Sink>(differs: &Differs, notes: &mut N) -> Result<(), Failed>
    ensures { Appends (N.told notes.old) (N.told notes.new) (other_answer differs.now).note (N.faults notes.old) (N.faults notes.new) result }
{
    let mut line = Stretch::new();
    line.put_pieces(
        &[
            Piece::Text("vlbi: other journal at byte "),
            Piece::Number(differs.at),
            Piece::Text(": kept "),
        ],
        notes,
    );
    put_byte(differs.kept, &mut line, notes);
    line.put(b", ours ", notes);
    put_byte(differs.ours, &mut line, notes);
    line.put(b"\n", notes);
    line.finish(notes)
}

// Puts a byte in two hexadecimal digits, or `none` where there is no byte.
fn put_byte<N: Sink>(byte: Option<u8>, line: &mut Stretch, notes: &mut N)
    ensures { Puts (byte_or_none byte) line.old line.new (N.told notes.old) (N.told notes.new) (N.faults notes.old) (N.faults notes.new) }
{
    match byte {
        Some(byte) => line.put(&hex_digits(byte), notes),
        None => line.put(b"none", notes),
    }
}

// The two hexadecimal digits of a byte.
fn hex_digits(byte: u8) -> [u8; 2]
    ensures { result ≡ encode_lower (byte ∷ []) }
{
    let mut digits = [0; 2];
    let _ = encode_to_slice([byte], &mut digits);
    digits
}
