//! The values that stand in a line of the journal, as texts.
//!
//! Below stands `nc_types`; `nc_journal` writes whole lines by these.
#![tactic(auto)]

mod field;

pub use field::{
    put, put_bytes, put_cursor, put_id, put_list, put_name, put_number, put_numbers,
    put_optional_bytes, put_optional_full, put_optional_id, put_optional_info, put_optional_list,
    put_optional_number, put_start, put_subs, put_truth, put_word, room,
};
