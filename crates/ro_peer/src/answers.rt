//! What a lock or an unlock of a mutex comes to, by its owner alone.
ghost use Rattle.std.specs.Prelude.{◌≡◌};
ghost use Rattle.ro_orders.specs.Answers.{answer_by};
ghost use Rattle.ro_peer.specs.Seen.{said};

use ro_event::{Function, Which};

/// What a call on a mutex comes to.
#[derive(Clone, Copy, PartialEq, Eq, Debug)]
pub enum Answer {
    /// It is answered.
    Answers {
        /// The mutex's new owner, or that it is free from now on; `None` where nothing changes.
        change: Option<Option<u32>>,
        value: u32,
    },
    /// It waits.
    Waits,
}

/// The error number of a lock by the owner.
const DEADLOCK: u32 = 35;

/// The error number of an unlock by another thread than the owner.
const NOT_OWNER: u32 = 1;

/// What a lock or an unlock by a thread comes to. No other call is answered.
pub fn answer_to(which: Which, thread: u32, owner: Option<u32>) -> Answer
    ensures { said result ≡ answer_by which thread owner }
{
    match which {
        Which::Function(Function::Lock) => lock(thread, owner),
        Which::Function(Function::Unlock) => unlock(thread, owner),
        _ => Answer::Waits,
    }
}

fn lock(thread: u32, owner: Option<u32>) -> Answer
    ensures { said result ≡ answer_by (Which.Function Function.Lock) thread owner }
{
    match owner {
        None => Answer::Answers {
            change: Some(Some(thread)),
            value: 0,
        },
        Some(owner) => {
            if owner == thread {
                Answer::Answers {
                    change: None,
                    value: DEADLOCK,
                }
            } else {
                Answer::Waits
            }
        }
    }
}

fn unlock(thread: u32, owner: Option<u32>) -> Answer
    ensures { said result ≡ answer_by (Which.Function Function.Unlock) thread owner }
{
    if owner == Some(thread) {
        Answer::Answers {
            change: Some(None),
            value: 0,
        }
    } else {
        Answer::Answers {
            change: None,
            value: NOT_OWNER,
        }
    }
}
