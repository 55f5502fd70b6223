//! What a scrub compares of two replicas.
ghost use Rattle.std.specs.Prelude.{◌≡◌, ◌≤◌, ◌↔◌, IsTrue, length};
ghost use Rattle.ro_replica.specs.Seen.{AreTwins, replica_of};
ghost use Rattle.ro_replica.specs.Snapshots.{snapshot_of, thread_snapshot, thread_snapshots};

use crate::replicas::Replica;
use ro_kernel::Kernel;
use ro_thread::Thread;

impl Replica {
    /// Whether another replica of the program is the same in all that its program can ever read.
    pub fn is_same(&self, other: &Replica, kernel: &Kernel) -> bool
        requires { AreTwins self.now other.now }
        ensures { IsTrue result ↔ (snapshot_of kernel.now.kernel (replica_of self.now) ≡ snapshot_of kernel.now.kernel (replica_of other.now)) }
    {
        are_same(self.threads.as_slice(), other.threads.as_slice(), kernel)
            && self.pages.is_same(&other.pages)
    }
}

// Whether the threads are, one by one.
fn are_same(threads: &[Thread], others: &[Thread], kernel: &Kernel) -> bool
    requires count { length threads.now ≡ length others.now }
    requires few { length threads.now ≤ 16 }
    ensures { IsTrue result ↔ (thread_snapshots kernel.now.kernel 0 threads.now ≡ thread_snapshots kernel.now.kernel 0 others.now) }
{
    for number in 0..threads.len() {
        if !is_same_thread(
            &threads[number],
            &others[number],
            kernel.lives_on(number as u32),
        ) {
            return false;
        }
    }
    true
}

// Whether a thread is.
fn is_same_thread(thread: &Thread, other: &Thread, lives: bool) -> bool
    ensures { IsTrue result ↔ (thread_snapshot lives thread.now ≡ thread_snapshot lives other.now) }
{
    if lives {
        thread.since == other.since && thread.cpu == other.cpu && thread.stop == other.stop
    } else {
        thread.since == other.since
    }
}
