//! Laws of plans: what one holds, and after which calls it still stands.
ghost use Rattle.orc_plans.specs.Plans.{ChangesAreTargets, ExpandedStandsBehind, PlanRefusesFirst, UnheldStay, UntouchedStay, ChangesAreHeld, PlannedStands, PlanIsEnough, UnreadPlanStands, PlanStands, UnclashedStands, UnrefusedStands, HeldStay, PlannedTreeIsStable, LegalStands, PlansStandTogether, PlannedTogetherFit, TogetherUnrefused};

use orc_datastore::literal_is_expansion;
use orc_services::expanded_stands;

/// Each path of the data that a call changes lies inside one of its targets, whatever the data.
pub fn changes_are_targets()
    ensures { ChangesAreTargets }
{}

/// What the actions of a call come to still stands after another call, where no target of that covers a
/// read of its expansions.
pub fn expanded_stands_behind()
    ensures { ExpandedStandsBehind }
{
    expanded_stands();
}

/// A call is refused for what refuses its plan, and else for a clash.
pub fn plan_refuses_first()
    ensures { PlanRefusesFirst }
{}

/// A call changes no tree but those of the devices that it touches.
pub fn untouched_stay()
    ensures { UntouchedStay }
{}

/// A call that is planned leaves the tree and the base of each device that its plan
/// doesn't hold.
pub fn unheld_stay()
    ensures { UnheldStay }
{}

/// Each path of the data that a call changes lies inside a target of its plan, which holds each service
/// that the call names.
pub fn changes_are_held()
    ensures { ChangesAreHeld }
{}

/// A plan stands on the state that it is made on, whatever its front; where it stands and the data is
/// valid with its call, it is the call's plan there but for the front.
pub fn planned_stands()
    ensures { PlannedStands }
{}

/// A plan is enough to do its call, with no service expanded again: where it stands, the call comes to
/// its actions with the expansions of the plan.
pub fn plan_is_enough()
    ensures { PlanIsEnough }
{
    literal_is_expansion();
}

/// A plan still stands after calls of which no write touches one of its reads, whatever else they do: its
/// call has no fault of existence there, comes to the same actions, holds the same and writes the same.
pub fn unread_plan_stands()
    ensures { UnreadPlanStands }
{
    literal_is_expansion();
    expanded_stands();
}

/// A plan still stands after other calls, each of which fits it where it is done.
pub fn plan_stands()
    ensures { PlanStands }
{
    literal_is_expansion();
    expanded_stands();
}

/// A call that isn't refused isn't refused after other calls that fit it, where the data is valid with
/// it there.
pub fn unrefused_stands()
    ensures { UnrefusedStands }
{
    expanded_stands();
}

/// A call that clashes with no living service clashes with none after other calls that fit its plan, whether or not
/// the data is valid with it there.
pub fn unclashed_stands()
    ensures { UnclashedStands }
{
    expanded_stands();
}

/// Other calls that fit a plan leave the tree and the base of each device that it holds.
pub fn held_stay()
    ensures { HeldStay }
{
    expanded_stands();
}

/// And what its call makes of each of these devices is the same after them.
pub fn planned_tree_is_stable()
    ensures { PlannedTreeIsStable }
{
    expanded_stands();
}

/// So a call that makes a history legal also makes one legal to which other calls were added that fit it,
/// where the data is valid with it there.
pub fn legal_stands()
    ensures { LegalStands }
{
    expanded_stands();
}

/// Where one of the calls that are planned together is done, the plans of the others stand, and still
/// fit together.
pub fn plans_stand_together()
    ensures { PlansStandTogether }
{
    literal_is_expansion();
    expanded_stands();
}

/// So each call that is planned together with others is fit by these, done one after another in any
/// order.
pub fn planned_together_fit()
    ensures { PlannedTogetherFit }
{
    literal_is_expansion();
    expanded_stands();
}

/// So calls that are planned together, none of which clashes on that state, are refused nowhere in any
/// order in which the data is valid with each of them where it is done.
pub fn together_unrefused()
    ensures { TogetherUnrefused }
{
    literal_is_expansion();
    expanded_stands();
}
