// Compaction of one list: what becomes of each record, and the new list.
#![tactic(auto)]

mod accepted;
mod filter;
mod stream;
mod verdict_table;

pub use stream::{Compacted, Job, compact, compact_filtered};
