//! What users rely on, over whole histories: laws of the state that no code above cites. Each is the
//! contract of a function that does nothing. Those of plans by themselves stand in `orc_plans`.
#![tactic(auto)]

mod entries;
mod histories;
mod services;

pub use entries::entry_writes_are_held;
pub use histories::{
    data_is_configuration, data_is_valid, deleted_without_trace, devices_stay, legal_without_trace,
    order_of_creation_is_free, overlay_is_one, unrefused_without_trace,
};
pub use services::{
    living_is_last_made, service_holds_its_expansion, service_lives_where_it_stands,
    unnamed_service_stays,
};
