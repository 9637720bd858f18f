//! What is wrong with a YANG statement where it stands (RFC 7950): that it may not stand there, that it lacks what it
//! needs, that its argument hasn't its form, that a name is there already or nothing has it. The first such fault of
//! modules is found here; what modules without one say of a configuration is `orc_schema`'s.
#![tactic(auto)]

mod arguments;
mod counts;
mod cuts;
mod duplicates;
mod fault;
mod faults;
mod gaps;
mod names;
mod placement;
mod reference;
mod seen;
mod type_faults;
mod typing;
mod walk;

pub use arguments::{is_mandatory, keys_of};
pub use counts::count_of;
pub use cuts::{Mark, cut};
pub use fault::SchemaFault;
pub use reference::{Reference, StepName, reference_of};
pub use typing::typed;
pub use walk::first_fault;
