// Texts made of pieces.
ghost use Rattle.std.specs.Prelude.{◌≡◌};
ghost use Rattle.sink_text.specs.{Appends.{Appends}, Pieces.{piece_text, pieces_text}, Written.{Puts}};

use crate::Stretch;
use dev_traits::{Failed, Sink};
use itoa::Buffer;

/// A piece of a text: a text or bytes as they stand, or a number in decimal, a negative one with its sign.
#[derive(Clone, Copy, Debug)]
pub enum Piece<'a> {
    Text(&'a str),
    Bytes(&'a [u8]),
    Number(u64),
    Signed(i64),
    Wide(u128),
}

/// Appends the pieces, one after another, in stretches of up to 8,192 bytes. Where the sink fails, what was
/// appended before stays.
pub fn append_pieces<S: Sink>(pieces: &[Piece<'_>], out: &mut S) -> Result<(), Failed>
    ensures { Appends (S.told out.old) (S.told out.new) (pieces_text pieces.now) (S.faults out.old) (S.faults out.new) result }
{
    let mut stretch = Stretch::new();
    stretch.put_pieces(pieces, out);
    stretch.finish(out)
}

impl Stretch {
    /// Puts pieces, one after another, behind what is on its way.
    pub fn put_pieces<S: Sink>(&mut self, pieces: &[Piece<'_>], out: &mut S)
        ensures { Puts (pieces_text pieces.now) self.old self.new (S.told out.old) (S.told out.new) (S.faults out.old) (S.faults out.new) }
    {
        for piece in pieces {
            self.put_piece(piece, out);
        }
    }

    // Puts a piece behind what is on its way.
    fn put_piece<S: Sink>(&mut self, piece: &Piece<'_>, out: &mut S)
        ensures { Puts (piece_text piece.now) self.old self.new (S.told out.old) (S.told out.new) (S.faults out.old) (S.faults out.new) }
    {
        match piece {
            Piece::Text(text) => self.put(text.as_bytes(), out),
            Piece::Bytes(bytes) => self.put(bytes, out),
            Piece::Number(n) => self.put(Buffer::new().format(*n).as_bytes(), out),
            Piece::Signed(n) => self.put(Buffer::new().format(*n).as_bytes(), out),
            Piece::Wide(n) => self.put(Buffer::new().format(*n).as_bytes(), out),
        }
    }
}
