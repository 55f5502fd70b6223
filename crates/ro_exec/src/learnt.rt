//! What runs learn of the memory that they run in.
ghost use Rattle.std.specs.Prelude.{ℕ, Bool, Option};
ghost use Rattle.ro_exec.specs.Next.{Layout};
ghost use Rattle.ro_exec.specs.Stretches.{IsLearnt};

use crate::data::Open;
use crate::stretch::{NONE, Stretch};

/// The code that ran last, and pages of data that were accessed.
#[derive(Drop)]
pub struct Learnt {
    pub code: Stretch,
    pub reads: Open,
    pub writes: Open,
}

impl Learnt {
    /// Nothing.
    pub fn nothing() -> Learnt
        ensures { (layout : Layout) (pages : ℕ → Bool) (places : ℕ → Option ℕ) → IsLearnt layout pages places result }
    {
        Learnt {
            code: NONE,
            reads: Open::new(),
            writes: Open::new(),
        }
    }
}
