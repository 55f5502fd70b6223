//! Calls that a replica is answered without a vote.
ghost use Rattle.std.specs.Prelude.{◌≡◌, ◌+◌, ◌<◌, ◌≤◌, ◌^◌, ℕ, None, Some, length};
ghost use Rattle.ro_event.specs.declared.stops.Stop.TheVariants.{Calls};
ghost use Rattle.ro_replica.specs.Replica.{changed_at, went_on};
ghost use Rattle.ro_replica.specs.Runs.{with_stop, standing_at};
ghost use Rattle.ro_replica.specs.Seen.{replica_of, CanCount, SameProgram};

use crate::cpus::answer;
use crate::replicas::Replica;
use ro_event::Call;
use ro_thread::Thread;

impl Replica {
    /// Forgets where a thread stands still.
    pub fn forget_stop(&mut self, thread: u32)
        requires { thread < length self.old.threads }
        ensures program { SameProgram self.new self.old }
        ensures forgotten { replica_of self.new ≡ record (replica_of self.old) { threads = changed_at (with_stop None) self.old.threads thread } }
        ensures few { length self.new.threads ≤ 16 }
    {
        self.threads[thread as usize].stop = None;
    }

    /// Answers the call at which a thread stands: it goes on behind it. That counts as an instruction.
    pub fn answer(&mut self, thread: u32, call: Call, value: u32)
        requires standing { standing_at self.old.layout self.old.watchdog (replica_of self.old) thread ≡ Some (Calls call) }
        requires countable { CanCount 1 self.old thread }
        ensures program { SameProgram self.new self.old }
        ensures answered { replica_of self.new ≡ record (replica_of self.old) { threads = changed_at (went_on call thread value) self.old.threads thread } }
    {
        go_on_behind(&mut self.threads[thread as usize], call, value);
    }
}

// The thread goes on behind a call.
fn go_on_behind(thread: &mut Thread, call: Call, value: u32)
    requires since { thread.old.since + 1 < 2 ^ 32 }
    requires done { thread.old.done + 1 < 2 ^ 128 }
    ensures { (number : ℕ) → thread.new ≡ went_on call number value thread.old }
{
    answer(&mut thread.cpu, call, value);
    thread.since += 1;
    thread.done += 1;
}
