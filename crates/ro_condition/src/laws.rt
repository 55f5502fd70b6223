//! What signals and the ends of waits do.
ghost use Rattle.std.specs.Prelude.{ℕ, ◌≡◌, ◌≢◌, ◌++◌, ◌∷◌, List, false, true, None};
ghost use Rattle.std.specs.List.{list_any};
ghost use Rattle.ro_condition.specs.declared.waiters.Waiter.{Waiter};
ghost use Rattle.ro_condition.specs.Waiters.{wait_of, waits_for, without, woken, with_signal, with_broadcast};

/// A signal reaches the first that waits on the condition variable, and no other; where none does, nothing changes, and
/// no wait that begins later knows of it.
#[tactic(auto, using(crate::proofs::Signals::signal_laws))]
pub fn signals_reach_the_first()
    ensures first { (before : List Waiter) (waiter : Waiter) (behind : List Waiter) (condition : ℕ) → list_any (waits_for condition) before ≡ false → waits_for condition waiter ≡ true → with_signal (before ++ waiter ∷ behind) condition ≡ before ++ woken waiter ∷ behind }
    ensures nobody { (waiters : List Waiter) (condition : ℕ) → list_any (waits_for condition) waiters ≡ false → with_signal waiters condition ≡ waiters }
    ensures none { (waiters : List Waiter) (condition : ℕ) → list_any (waits_for condition) waiters ≡ false → with_broadcast waiters condition ≡ waiters }
    ensures all { (waiters : List Waiter) (condition : ℕ) → list_any (waits_for condition) (with_broadcast waiters condition) ≡ false }
{}

/// What one thread's wait comes to leaves the waits of the others.
#[tactic(auto, using(crate::proofs::Signals::signal_laws))]
pub fn each_wait_is_its_own()
    ensures begun { (waiters : List Waiter) (waiter : Waiter) (other : ℕ) → waiter.thread ≢ other → wait_of (waiters ++ waiter ∷ List.[]) other ≡ wait_of waiters other }
    ensures ended { (waiters : List Waiter) (thread other : ℕ) → thread ≢ other → wait_of (without waiters thread) other ≡ wait_of waiters other }
{}
