//! Where stacks and the heap lie, and which replicas a lane is for.
ghost use Rattle.std.specs.Prelude.{ℕ, ◌≡◌, ◌+◌, ◌<◌, ◌≤◌, Option};
ghost use Rattle.ro_event.specs.declared.calls.Call.{Call};
ghost use Rattle.ro_image.specs.Image.{stack_range, heap_size};
ghost use Rattle.ro_exec.specs.Threads.{stack_top};
ghost use Rattle.ro_kernel.specs.Kernel.{Setup, Kernel};
ghost use Rattle.ro_kernel.specs.Serve.{serve_brk, answers};
ghost use Rattle.ro_region.specs.declared.Range.{Range};
ghost use Rattle.ro_replica.specs.Seen.{ReplicaOf, SameProgram, Widens};
ghost use Rattle.ro_replica.specs.Lent.{LaneOf, IsLaneFor, HasProgram, SameProgramOf};

/// A thread's stack ends where the range that is its stack does.
pub fn stacks_end_with_their_ranges()
    ensures { (thread : ℕ) → stack_top thread ≡ (stack_range thread).start + (stack_range thread).length }
{}

/// The heap ends anywhere from the start of its range to its end, and nowhere else.
pub fn the_heap_ends_in_its_range()
    ensures within { (setup : Setup) (kernel : Kernel) (thread : ℕ) (call : Call) → setup.heap ≤ call.a0 → call.a0 ≤ setup.heap + heap_size → serve_brk setup kernel thread call ≡ answers (record kernel { heap_end = call.a0 }) thread call call.a0 }
    ensures below { (setup : Setup) (kernel : Kernel) (thread : ℕ) (call : Call) → call.a0 < setup.heap → serve_brk setup kernel thread call ≡ answers kernel thread call kernel.heap_end }
    ensures above { (setup : Setup) (kernel : Kernel) (thread : ℕ) (call : Call) → setup.heap + heap_size < call.a0 → serve_brk setup kernel thread call ≡ answers kernel thread call kernel.heap_end }
{}

/// A lane stays one for its replica: when it is lent, when it runs or goes back, and when its replica is given a range more.
pub fn a_lane_stays_one_for_its_replica()
    ensures lent { (lane after : LaneOf) (replica : ReplicaOf) → IsLaneFor lane replica → HasProgram after replica → IsLaneFor after replica }
    ensures same { (lane after : LaneOf) (old new : ReplicaOf) → IsLaneFor lane old → SameProgramOf after lane → SameProgram new old → IsLaneFor after new }
    ensures wider { (lane : LaneOf) (range : Option Range) (old new : ReplicaOf) → IsLaneFor lane old → Widens range new old → IsLaneFor lane new }
{}
