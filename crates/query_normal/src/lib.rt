//! Keys, which name what a client may read and keep, and the page that shows which issued copies are
//! outdated.
#![tactic(auto)]

pub mod bits;
mod filters;
mod forms;
mod key;
mod laws;
mod normal_query;
mod orders;
mod sorting;
mod text;
mod text_order;

pub use forms::normal;
pub use key::{Key, KeyShape};
pub use laws::{
    heights_do_not_grow, keys_of_records_are_equal_where_their_texts_are, leaves_do_not_grow,
    normal_forms_are_queries, normal_forms_keep_their_meaning, normal_forms_keep_their_windows,
    normal_forms_stay, same_key_is_equality,
};
pub use normal_query::Normal;
