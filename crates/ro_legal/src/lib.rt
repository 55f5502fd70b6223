//! The rules of a run: the states of its core, which entries a journal may have, what each of them does, which one comes
//! next, and what holds of every legal journal. The core itself, which keeps them, stands above.
#![tactic(auto)]

mod actions;
mod corruptions;
mod laws;
mod leases_out;
mod parkings;

pub use actions::{Action, PATIENCE, Waits};
pub use corruptions::{corrupted_pages_are_the_same, scrubs_come_in_time_still};
pub use laws::{
    cooperative_drivers_take_turns, cooperative_journals_keep_mutexes,
    cooperative_journals_keep_replicas, cooperative_leases_come_back, cooperative_leases_last,
    end_is_last, granted_everywhere, idle_drivers_hold_nothing, leases_are_apart, leases_come_back,
    leases_last, misses_are_few, next_may_be_done, no_other_flip, no_three_parts,
    one_driver_takes_turns, one_grant_order, page_faults_wait, pages_run_as_the_whole, same_pages,
    scrubs_come_in_time, struck_once, waits_are_bounded, waits_are_counted, who_waited_comes_first,
};
pub use leases_out::{forget_lease, has_lease, lease_of, lends_pages, note_lease};
pub use parkings::Parking;
