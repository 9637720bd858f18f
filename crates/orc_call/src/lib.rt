//! Calls, their answers, and the one encoding of each call on disk.
//!
//! A call is spelled as a row of fields, one after another; `encode` writes them and `decode`
//! reads them back, whatever follows. The answers to calls and to reconciliations stand here too,
//! for all crates above.
#![tactic(auto)]

mod actions;
mod answer;
mod call;
mod counting;
mod decoding;
mod encoding;
mod fault;
mod fields;
mod lawful;
mod parts;

pub use answer::{Answer, RecFault, Tag, Why};
pub use call::{Action, Call, DevicePut, MOST_ACTIONS, Put};
pub use counting::encoded_len;
pub use decoding::decode;
pub use encoding::encode;
pub use fault::CodecFault;
pub use lawful::is_encodable;
