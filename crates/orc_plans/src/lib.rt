//! What plans rest on: after which calls a plan still stands, what it is enough for, what it holds, and which
//! clash refuses a call. Each law is the contract of a function that does nothing; who needs one calls it.
#![tactic(auto)]

mod clashes;
mod plans;

pub use clashes::{clash_is_least, services_agree};
pub use plans::{
    changes_are_held, changes_are_targets, expanded_stands_behind, held_stay, legal_stands,
    plan_is_enough, plan_refuses_first, plan_stands, planned_stands, planned_together_fit,
    planned_tree_is_stable, plans_stand_together, together_unrefused, unclashed_stands,
    unheld_stay, unread_plan_stands, unrefused_stands, untouched_stay,
};
