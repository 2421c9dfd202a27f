//! The tokenizer and the cleaner for C: each call is one of `html5handle`, with the same clauses.
#![tactic(auto)]

mod calls;
mod cleaner_calls;
mod names;
mod policy_calls;
mod version;

pub use calls::{
    html5_encoding, html5_end, html5_error_at, html5_feed, html5_free, html5_insert, html5_is_over,
    html5_new, html5_reply, html5_restart, html5_set_encoding, html5_set_foreign, html5_set_limit,
    html5_take,
};
pub use cleaner_calls::{
    html5_cleaner_end, html5_cleaner_error_at, html5_cleaner_feed, html5_cleaner_is_over,
    html5_cleaner_new, html5_cleaner_restart, html5_cleaner_take,
};
pub use names::html5_error_code;
pub use policy_calls::{html5_cleaner_begin, html5_policy_add, html5_policy_new};
pub use version::html5_version;
