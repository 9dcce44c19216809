// What the C++ host links: thin exports of the libraries' entry points, on numbers and byte slices. Nothing is decided here.
// A struct has the layout of its namesake in include/vls.h: `Checked` is vls_checked, its `outcome` number, list and record.
#![tactic(auto)]

mod compactions;
mod figures;
mod lists;
mod outcome;
mod reads;
mod tables;
mod version;

pub use compactions::{Compacted, vls_compact, vls_compact_filtered};
pub use figures::{
    Figure, Told, vls_memtable_flag_rotated, vls_memtable_highest_seqno, vls_memtable_id,
    vls_memtable_is_empty, vls_memtable_is_flagged, vls_memtable_len, vls_memtable_size,
};
pub use lists::{Checked, vls_check, vls_open};
pub use outcome::Outcome;
pub use reads::{
    Answer, Part, Placed, Prefixed, Started, Stepped, vls_back, vls_back_in_place, vls_front,
    vls_front_in_place, vls_key, vls_prefix, vls_record, vls_start, vls_value,
};
pub use tables::{Changed, Found, vls_get, vls_memtable_insert, vls_memtable_new};
pub use version::vls_version;
