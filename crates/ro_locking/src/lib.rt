//! The locks of peers, asked of a lock page.
#![tactic(auto)]

mod laws;
mod page_locks;

pub use laws::{
    ceiling_row, decision_row, gets_add_up, gets_are_below, numbers_stay, rows_are_gets,
};
pub use page_locks::{PageLocks, is_below};
