//! What follows from the definitions for every record file. The functions do nothing: a call brings its law.
ghost use Rattle.std.specs.Prelude.{ℕ, List};
ghost use Rattle.vis_records.specs.Content.{Content};
ghost use Rattle.fringe_search.specs.{Certificates.{IsRight}, Laws.{HasItsCells, HasItsPeaks}};

/// The cells of a series in an integration are those of the record of that scan, integration, product and baseline.
pub fn cells_of_records()
    ensures { (content : Content) → HasItsCells content }
{}

/// In a right certificate each peak's line names the peak of its scan, product and baseline, and none of these is left out.
pub fn peaks_of_certificates()
    ensures { (content : Content) (text : List ℕ) (right : IsRight content text) → HasItsPeaks content right.grid right.lines }
{}
