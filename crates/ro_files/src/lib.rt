//! The files of a command: each is fetched and read, in their order, and they spell the job that is to be run, the plan that is
//! to be followed, or the executable for which faults are to be drawn.
#![tactic(auto)]

mod agreeing;
mod asking;
mod files;

pub use asking::{FetchedJob, Job, Replay, fetch_job, image_from, replay_from};
pub use files::{fetch, image, journal};
