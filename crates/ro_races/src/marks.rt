//! Vector clocks: for each thread, how far its steps are known.
ghost use Rattle.std.specs.Prelude.{ℕ, ◌≡◌, ◌<◌, ◌≤◌, ◌+◌, ◌^◌, ◌⊎◌, nat_lt, if◌then◌else◌};
ghost use Rattle.ro_races.specs.Clocks.{IsJoined, IsStepped};
ghost use Rattle.ro_races.specs.Seen.{seen_by};

/// How many threads can be made.
const THREADS: usize = ro_limits::MOST_THREADS as usize;

/// For each thread, one more than the place of the last of its steps that is known; 0 where none is.
#[derive(Clone, Copy, Debug, PartialEq, Eq)]
pub(crate) struct Clock {
    pub seen: [u32; 16],
}

/// The clock that knows of no step.
pub(crate) const NOTHING: Clock = Clock { seen: [0; 16] };

impl Clock {
    /// Learns all that another clock knows.
    pub fn join(&mut self, other: &Clock)
        ensures { IsJoined (seen_by self.old) (seen_by other.now) (seen_by self.new) }
    {
        for thread in 0..THREADS {
            self.seen[thread] = self.seen[thread].max(other.seen[thread]);
        }
    }

    /// Learns of the step of a thread at a place.
    pub fn advance(&mut self, thread: u32, place: u32)
        requires thread { thread < 16 }
        requires place { place + 1 < 2 ^ 32 }
        ensures { IsStepped (seen_by self.old) thread place (seen_by self.new) }
    {
        self.seen[thread as usize] = place + 1;
    }

    /// The greatest entry of those that are beyond another clock's, or 0 where none is.
    pub fn latest_beyond(&self, past: &Clock) -> u32
        ensures above { (thread : ℕ) → (seen_by self.now thread ≤ seen_by past.now thread) ⊎ (seen_by self.now thread ≤ result) }
        ensures found { (result ≡ 0) ⊎ ((thread : ℕ) × (result ≡ seen_by self.now thread) × (seen_by past.now thread < result)) }
    {
        let mut latest: u32 = 0;
        for thread in 0..THREADS {
            latest = latest.max(if_beyond(self.seen[thread], past.seen[thread]));
        }
        latest
    }
}

/// An entry, if it is beyond what is known, and else 0.
fn if_beyond(mark: u32, known: u32) -> u32
    ensures { result ≡ (if nat_lt known mark then mark else 0) }
{
    if known < mark { mark } else { 0 }
}
