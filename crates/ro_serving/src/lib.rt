//! What the event of a vote comes to: a call is served by the kernel, or the kernel stays as it is; and what that does to the
//! replicas and to the thread.
#![tactic(auto)]

mod events;

pub use events::{Coming, Event, serve};
