//! What a bundle declares, and which calls are lawful under it: the devices with their bases and rules,
//! the data, and the lists whose entries are services. Readers of bundles and the state both speak of it,
//! so it stands below both, with the rules that a line of a bundle can break.
#![tactic(auto)]

mod base;
mod declarations;
mod fault;
mod lawful;
mod names;
mod opening;
mod rule;
mod schemas;
mod served;
mod steps;

pub use base::{declared_base, tree_of};
pub use declarations::{Decls, Device, MOST_DEVICES, device_name};
pub use fault::BundleFault;
pub use lawful::{
    MOST_WRITES, blank_item, is_call, is_data_path, is_item_at, is_kept, is_lawful_name,
    is_service_among, service_of,
};
pub use names::Names;
pub use opening::opening_data;
pub use rule::Rule;
pub use schemas::{schema_in, schema_named};
pub use served::{is_body, is_served, meets};
pub use steps::{path_of_step, step_of};
