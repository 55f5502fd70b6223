//! What a vote sees of a replica.
ghost use Rattle.std.specs.Prelude.{◌≡◌, ◌≤◌, ◌+◌, ◌^◌, [], IsTrue, Some, is_some};
ghost use Rattle.ro_event.specs.declared.stops.Stop.TheVariants.{Calls};
ghost use Rattle.ro_pages.specs.Bytes.{bytes_at};
ghost use Rattle.ro_replica.specs.Replica.{stop_of};
ghost use Rattle.ro_replica.specs.Views.{view_of, view_with};
ghost use Rattle.ro_replica.specs.Seen.{replica_of};

use crate::replicas::Replica;
use ro_event::{Call, Source, Stop, View};
use ro_kernel::payload_place;
use ro_thread::Thread;

impl Replica {
    /// Shows a thread that stands still.
    pub fn view(&self, thread: u32, view: &mut View)
        requires { IsTrue (is_some (stop_of (replica_of self.now) thread)) }
        ensures { view_of self.now.layout.ranges thread (replica_of self.now) ≡ Some view.new }
    {
        let Some(thread) = self.threads.get(thread as usize) else {
            unreachable!()
        };
        let Some(stop) = thread.stop else {
            unreachable!()
        };
        match stop {
            Stop::Calls(call) => self.show_call(thread, call, view),
            _ => show(thread, stop, view),
        }
    }

    /// Shows a thread that makes a call, with the bytes that a vote compares of it.
    #[tactic(auto, unfolding(ro_kernel::specs::Serve::payload_of))]
    fn show_call(&self, thread: &Thread, call: Call, view: &mut View)
        ensures { view.new ≡ view_with self.now.layout.ranges (replica_of self.now) thread.now (Calls call) }
    {
        show(thread, Stop::Calls(call), view);
        let place = payload_place(&self.regions, call);
        if place.len > 0 {
            view.read_payload(self, place.address, place.len as usize);
        }
    }
}

impl Source for Replica {
    ghost use Rattle.ro_pages.specs.Bytes.{bytes_at};
    ghost use Rattle.ro_replica.specs.Seen.{replica_of};

    ghost bytes = { λ r address len. bytes_at (replica_of r).memory address len };

    fn read(&self, address: u32, places: &mut [u8]) {
        self.pages.read_bytes(address, places);
    }
}

fn show(thread: &Thread, stop: Stop, view: &mut View)
    ensures { view.new ≡ record { registers = thread.now.cpu.registers; pc = thread.now.cpu.pc; since = thread.now.since; stop = stop; payload = [] } }
{
    view.show(&thread.cpu.registers, thread.cpu.pc, thread.since, stop);
}
