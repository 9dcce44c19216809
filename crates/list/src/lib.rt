// The list form: fields, value types, the order of versions, records, the checker of one list, and the writer's pieces.
#![tactic(auto)]

mod checker;
mod field;
mod key;
mod record;
mod refusal;
mod value;
mod value_type;
mod writer;

pub use checker::{HEADER_LEN, LIST_LIMIT, MARK, check_header, check_list, count_in, next_record};
pub use field::{le, put_le, put_word, word_at, words_in};
pub use key::{KEY_LIMIT, compare_keys, compare_versions, is_less, same_key};
pub use record::{RECORD_LEN, Record, no_record, read_record, read_whole};
pub use refusal::{Refusal, Refused};
pub use value::{key_of, kind_by, seqno_by, value_of};
pub use value_type::ValueType;
pub use writer::{copy_bytes, copy_record, put_count, write_header, write_record};
