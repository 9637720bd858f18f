//! That each call of the hub is an event of the rules.
#![tactic(auto)]

mod named;
mod turns;

pub use named::{
    admissions_are_named, decisions_are_named, mending_end_is_named, submissions_are_named,
};
pub use turns::{
    admit_is_event, arming_arms, decide_is_event, letting_go_is_stop, mending_begins, mending_ends,
    no_admission, no_decision, nothing_ordered, opening_stays_down, order_is_performed,
    order_is_unsent, refusal_stays_down, report_is_event, snapshot_begins, start_is_recovery,
    submit_is_event,
};
