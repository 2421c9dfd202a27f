//! A session, a page read with places, a policy, or a page that is cleaned, as a handle. A page is fed as its bytes arrive,
//! and the records of its tokens are taken, or what a policy keeps of it. The calls for C are thin over it.
#![tactic(auto)]

mod calls;
mod cleaner_calls;
mod cleaner_opening;
mod cleaner_slot;
mod encoding_slot;
mod ending;
mod handle;
mod names;
mod opening;
mod options;
mod placed_slot;
mod policy_calls;
mod policy_slot;
mod rule_status;
mod slot;
pub mod status;

pub use calls::{
    encoding, end, error_at, feed, free, insert, is_over, new, reply, restart, set_encoding,
    set_foreign, set_limit, take,
};
pub use cleaner_calls::{
    cleaner_end, cleaner_error_at, cleaner_feed, cleaner_is_over, cleaner_new, cleaner_restart,
    cleaner_take,
};
pub use handle::Handle;
pub use names::error_code;
pub use options::Options;
pub use policy_calls::{cleaner_begin, policy_add, policy_new};
