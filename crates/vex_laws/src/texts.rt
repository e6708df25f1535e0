//! What follows for every text of a schedule.
ghost use Rattle.std.specs.Prelude.{ℕ, List};
ghost use Rattle.vex_reader.specs.{declared.shape.Shape.{Shape}, Shapes.{Mark}};
ghost use Rattle.vex_laws.specs.{Kinds.{TellsWords}, Rows.{HasShapeOfRow, FitsOneRow}, Places.{HasPlacedFault}};

/// A word's bytes begin with no quotation mark and those of a quoted text with one, by which a schedule tells them.
pub fn tells_words()
    ensures { (text : List ℕ) → TellsWords text }
{}

/// A statement has a shape exactly where the shape's row of the table fits.
pub fn shape_of_row()
    ensures { (at : ℕ) (marks : List Mark) (shape : Shape) → HasShapeOfRow at marks shape }
{}

/// One row fits each statement, and no second one.
pub fn one_row()
    ensures { (at : ℕ) (marks : List Mark) → FitsOneRow at marks }
{}

/// The fault of a text stands where its kind says: where a token is broken, where a statement begins, or at the text's end.
pub fn placed_fault()
    ensures { (text : List ℕ) → HasPlacedFault text }
{}
