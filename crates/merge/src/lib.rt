// Merging: what stands next at either end of a bundle's sources, and what is left past it.
#![tactic(auto)]

mod ends;
mod head;
mod plain;
mod seen;

pub use ends::{End, Ends, Left};
pub use head::{Torn, next_head};
pub use plain::{Best, peek};
pub use seen::Seen;
