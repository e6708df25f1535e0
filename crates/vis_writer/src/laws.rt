//! What follows for every plan. The functions do nothing: a call brings its law.
ghost use Rattle.std.specs.Prelude.{◌≡◌, ◌^◌, ◌<◌, length};
ghost use Rattle.corr_model.specs.{Files.{Files}, Records.{IsHead, vis_text}};
ghost use Rattle.job_plan.specs.{declared.plan.Plan.{Plan}, Output.{head_of, output}, Ranges.{IsPlan}};
ghost use Rattle.vis_writer.specs.{Cells.{all_cells}, PlanCells.{cells_from}};

/// The record file of a plan's head with the plan's cells is what the plan comes to.
pub fn file_of_plan()
    ensures { (plan : Plan) (files : Files) → vis_text (head_of plan) (all_cells (head_of plan) (cells_from plan files)) ≡ output plan files }
{}

/// A plan of fewer than 2^32 scans has a head in its ranges.
pub fn head_in_ranges()
    ensures { (plan : Plan) → IsPlan plan → length plan.scans < 2 ^ 32 → IsHead (head_of plan) }
{}
