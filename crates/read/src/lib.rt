// Reading several lists at once, from two ends.
#![tactic(auto)]

mod begin;
mod cursor;
mod mvcc_stream;
mod place;
mod range;

pub use begin::{Started, start};
pub use cursor::{Cursor, Entry};
pub use place::{Place, is_fit, key, place_of, value};
pub use range::{Bounds, prefix_to_range};
