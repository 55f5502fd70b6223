//! What holds of every call that is served.
ghost use Rattle.std.specs.Prelude.{ℕ, ◌≡◌, ◌≢◌, true, false, [], ◌∷◌, ◌++◌, Option, Some, None, is_some, length};
ghost use Rattle.ro_region.specs.declared.Kind.TheVariants.{Write};
ghost use Rattle.ro_region.specs.Permission.{permits_of};
ghost use Rattle.ro_event.specs.declared.calls.Which.TheVariants.{System, Function};
ghost use Rattle.ro_event.specs.declared.functions.Function.TheVariants.{MutexInit, Lock, TryLock, Unlock, Wait};
ghost use Rattle.ro_event.specs.declared.calls.Call.{Call};
ghost use Rattle.ro_event.specs.Effects.{Effect};
ghost use Rattle.ro_condition.specs.declared.waiters.Waiter.{Waiter};
ghost use Rattle.ro_condition.specs.Waiters.{wait_of};
ghost use Rattle.ro_mutex.specs.Owners.{owner_of};
ghost use Rattle.ro_kernel.specs.Kernel.{Setup, Kernel, ranges_in, released, lives_on};
ghost use Rattle.ro_kernel.specs.Serve.{serve, blocks, parks, Done, Parked, Blocked, answer_effect};
ghost use Rattle.ro_kernel.specs.Errors.{is_error};

/// A call that is served leaves every other live thread live, and one that does its first step every thread as it was.
#[tactic(auto, using(crate::proofs::Outcomes::outcome_laws))]
pub fn other_threads_live_on()
    ensures served { (setup : Setup) (kernel after : Kernel) (thread other : ℕ) (call : Call) (effect : Effect) → serve setup kernel thread call ≡ Done after effect → other ≢ thread → lives_on kernel other ≡ true → lives_on after other ≡ true }
    ensures parked { (setup : Setup) (kernel after : Kernel) (thread other : ℕ) (call : Call) → serve setup kernel thread call ≡ Parked after → lives_on after other ≡ lives_on kernel other }
{}

/// A system call never blocks.
#[tactic(auto, using(crate::proofs::Outcomes::outcome_laws))]
pub fn system_calls_never_block()
    ensures { (setup : Setup) (kernel : Kernel) (thread number : ℕ) (call : Call) → call.which ≡ System number → blocks setup kernel thread call ≡ false }
{}

/// A call blocks exactly where serving it comes to nothing.
#[tactic(auto, using(crate::proofs::Outcomes::outcome_laws))]
pub fn blocks_as_serve_says()
    ensures blocked { (setup : Setup) (kernel : Kernel) (thread : ℕ) (call : Call) → blocks setup kernel thread call ≡ true → serve setup kernel thread call ≡ Blocked }
    ensures blocks { (setup : Setup) (kernel : Kernel) (thread : ℕ) (call : Call) → serve setup kernel thread call ≡ Blocked → blocks setup kernel thread call ≡ true }
{}

/// A wait on a condition variable has two steps. The first is done by the thread that holds the mutex, and frees it; the
/// second by one that was signalled, while nobody holds the mutex, and gives it back. No other call has two steps.
#[tactic(auto, using(crate::proofs::Waiting::waiting_laws))]
pub fn waits_give_the_mutex_up_and_back()
    ensures waits { (setup : Setup) (kernel after : Kernel) (thread : ℕ) (call : Call) → serve setup kernel thread call ≡ Parked after → call.which ≡ Function Wait }
    ensures begun { (setup : Setup) (kernel after : Kernel) (thread : ℕ) (call : Call) → serve setup kernel thread call ≡ Parked after → (owner_of kernel.owners call.a1 ≡ Some (Some thread)) × (owner_of after.owners call.a1 ≡ Some None) }
    ensures once { (setup : Setup) (kernel : Kernel) (thread : ℕ) (call : Call) → is_some (wait_of kernel.waiters thread) ≡ true → parks setup kernel thread call ≡ false }
    ensures ended { (setup : Setup) (kernel after : Kernel) (thread : ℕ) (call : Call) (effect : Effect) → call.which ≡ Function Wait → serve setup kernel thread call ≡ Done after effect → effect.answer ≡ Some 0 → ((waiter : Waiter) × (wait_of kernel.waiters thread ≡ Some waiter) × (waiter.signalled ≡ true)) × (owner_of kernel.owners call.a1 ≡ Some None) × (owner_of after.owners call.a1 ≡ Some (Some thread)) }
{}

/// A mutex that was locked has the caller for owner, and one that was unlocked is free.
#[tactic(auto, using(crate::proofs::Owned::owned_laws))]
pub fn locks_and_unlocks_set_the_owner()
    ensures locked { (setup : Setup) (kernel after : Kernel) (thread : ℕ) (call : Call) (effect : Effect) → call.which ≡ Function Lock → serve setup kernel thread call ≡ Done after effect → effect.answer ≡ Some 0 → owner_of after.owners call.a0 ≡ Some (Some thread) }
    ensures tried { (setup : Setup) (kernel after : Kernel) (thread : ℕ) (call : Call) (effect : Effect) → call.which ≡ Function TryLock → serve setup kernel thread call ≡ Done after effect → effect.answer ≡ Some 0 → owner_of after.owners call.a0 ≡ Some (Some thread) }
    ensures unlocked { (setup : Setup) (kernel after : Kernel) (thread : ℕ) (call : Call) (effect : Effect) → call.which ≡ Function Unlock → serve setup kernel thread call ≡ Done after effect → effect.answer ≡ Some 0 → owner_of after.owners call.a0 ≡ Some None }
{}

/// A mutex whose init answers 0 stands in the table. One that stood there stays as it was, held or free, as all others do; one
/// that did not came to the end of the table, and nobody holds it.
#[tactic(auto, using(crate::proofs::Inits::init_laws))]
pub fn inits_enter_the_mutex()
    ensures stands { (setup : Setup) (kernel after : Kernel) (thread : ℕ) (call : Call) (effect : Effect) → call.which ≡ Function MutexInit → serve setup kernel thread call ≡ Done after effect → effect.answer ≡ Some 0 → is_some (owner_of after.owners call.a0) ≡ true }
    ensures known { (setup : Setup) (kernel after : Kernel) (thread : ℕ) (call : Call) (effect : Effect) (owner : Option ℕ) → call.which ≡ Function MutexInit → serve setup kernel thread call ≡ Done after effect → owner_of kernel.owners call.a0 ≡ Some owner → after.owners ≡ kernel.owners }
    ensures entered { (setup : Setup) (kernel after : Kernel) (thread : ℕ) (call : Call) (effect : Effect) → call.which ≡ Function MutexInit → serve setup kernel thread call ≡ Done after effect → effect.answer ≡ Some 0 → owner_of kernel.owners call.a0 ≡ None → after.owners ≡ kernel.owners ++ (call.a0, None) ∷ [] }
{}

/// An error answer changes nothing but the caller's a0 and pc, and ends its reservation.
#[tactic(auto, using(crate::proofs::Refused::error_law))]
pub fn errors_change_nothing()
    ensures { (setup : Setup) (kernel after : Kernel) (thread value : ℕ) (call : Call) (effect : Effect) → serve setup kernel thread call ≡ Done after effect → effect.answer ≡ Some value → is_error call.which value ≡ true → (after ≡ released kernel thread) × (effect ≡ answer_effect thread call value) }
{}

/// What a served call stores, the guest could have stored itself.
#[tactic(auto, using(crate::proofs::Stores::stores_law))]
pub fn effects_store_where_the_guest_may()
    ensures { (setup : Setup) (kernel after : Kernel) (thread : ℕ) (call : Call) (effect : Effect) → serve setup kernel thread call ≡ Done after effect → permits_of (ranges_in setup kernel) Write effect.place (length effect.bytes) ≡ true }
{}
