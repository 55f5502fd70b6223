//! A replica that becomes as another is.
ghost use Rattle.std.specs.Prelude.{◌≡◌, length};
ghost use Rattle.ro_replica.specs.Replica.{copied_threads};
ghost use Rattle.ro_replica.specs.Seen.{AreTwins, Recovers};

use crate::replicas::Replica;
use ro_recover::Twin;
use ro_thread::Thread;

impl Twin for Replica {
    ghost may_become = { λ one other. AreTwins one other };

    ghost became = { λ winner old new. Recovers winner old new };

    /// Takes the pages, the threads, their stops and their counts since the last release of another replica, and keeps its
    /// own counts of all instructions and its own faults.
    fn copy_from(&mut self, other: &Replica) {
        self.pages.copy_from(&other.pages);
        copy_threads(self.threads.as_mut_slice(), other.threads.as_slice());
    }
}

/// Each thread becomes as the winner's is, but for what it has retired itself.
fn copy_threads(losers: &mut [Thread], winners: &[Thread])
    requires { length winners.now ≡ length losers.old }
    ensures { losers.new ≡ copied_threads winners.now losers.old }
{
    for i in 0..losers.len() {
        losers[i] = Thread {
            done: losers[i].done,
            ..winners[i]
        };
    }
}
