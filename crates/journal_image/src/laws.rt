//! Laws of a journal's images, as the contract of a function that does nothing.
ghost use Rattle.std.specs.Prelude.{ℕ, List};
ghost use Rattle.piece_plan.specs.Epochs.{JobSizes, IsJob};
ghost use Rattle.journal_image.specs.{Image.{IsIdentity}, Laws.{ReadsOnce, KeepsOne, ReadsNothing, ReadsInOrder, ReadsOwn, HasNoReading, DiffersOnce, EndsAtGate, ReadsMore, KeepsMore, StaysHonest}};

/// What an image says, and what it says once more stands behind its last gate.
pub fn reads()
    ensures once { (id : List ℕ) (job : JobSizes) (image : List ℕ) → IsIdentity id → IsJob job → ReadsOnce id job image }
    ensures one { (id : List ℕ) (job : JobSizes) (image : List ℕ) → IsIdentity id → IsJob job → KeepsOne id job image }
    ensures nothing { (id : List ℕ) (job : JobSizes) → ReadsNothing id job }
    ensures unread { (id : List ℕ) (job : JobSizes) (image : List ℕ) → IsIdentity id → IsJob job → HasNoReading id job image }
    ensures differs { (id : List ℕ) (job : JobSizes) (image : List ℕ) → IsIdentity id → IsJob job → DiffersOnce id job image }
    ensures in_order { (id : List ℕ) (job : JobSizes) (image : List ℕ) → ReadsInOrder id job image }
    ensures own { (id : List ℕ) (job : JobSizes) (image : List ℕ) → IsJob job → ReadsOwn id job image }
    ensures ends_at_gate { (id : List ℕ) (job : JobSizes) (image : List ℕ) → EndsAtGate id job image }
    ensures more { (id : List ℕ) (job : JobSizes) (image : List ℕ) → ReadsMore id job image }
    ensures keeps { (job : JobSizes) → KeepsMore job }
    ensures honest { (job : JobSizes) → StaysHonest job }
{}
