//! Worked plans: what the method gives on small plans that can be followed by hand.
#![tactic(auto)]

ghost use Rattle.std.specs.Prelude.{◌≡◌, length};
ghost use Rattle.worked_plans.specs.Worked.{worked, WorkedPlansStand};

/// The number of worked plans. Its contract says besides that every row of their table is right, so that the check asks for the proof.
pub fn worked_plan_count() -> usize
    ensures rows { result ≡ length worked }
    ensures stand { WorkedPlansStand }
{
    6
}
