// Bundles: lists end to end with a table of their lengths, their index, and the way from there to a record.
#![tactic(auto)]

mod index;
mod judge;
mod layout;
mod look;
mod walk;

pub use index::open;
pub use judge::judge_bundle;
pub use layout::{Fences, Layout, NO_FENCES, lay_out};
pub use look::{BUNDLE_LIMIT, Bundle, Span};
pub use walk::{Fence, count_of};
