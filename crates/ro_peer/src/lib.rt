//! A replica that answers the calls on cooperative mutexes by itself.
#![tactic(auto)]

mod answers;
mod events;
mod locks;
mod mutexes;
mod peers;
mod running;

pub use answers::{Answer, answer_to};
pub use locks::{Decision, Locks};
pub use mutexes::{Mutex, Mutexes};
pub use peers::Peer;
pub use running::{Came, PeerRan};
