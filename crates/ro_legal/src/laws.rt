//! What holds of every legal journal.
ghost use Rattle.std.specs.Prelude.{false, true, is_some, ◌≡◌, ◌≢◌, ◌<◌, ◌≤◌, ◌+◌, ◌⊎◌, ◌&&◌, ◌==◌, ◌∷◌, ◌++◌, ℕ, List, [], Some, None, not, length, slice_get};
ghost use Rattle.std.specs.List.{All, filter};
ghost use Rattle.ro_event.specs.declared.calls.Call.{Call};
ghost use Rattle.ro_event.specs.declared.stops.Stop.TheVariants.{Calls, PageFault};
ghost use Rattle.ro_exec.specs.Next.{Layout};
ghost use Rattle.ro_thread.specs.declared.Thread.{Thread};
ghost use Rattle.ro_replica.specs.Replica.{Replica, stop_of};
ghost use Rattle.ro_replica.specs.Runs.{RanTo, run_of};
ghost use Rattle.ro_journal.specs.declared.Entry.{Entry};
ghost use Rattle.ro_journal.specs.declared.Entry.TheVariants.{Put, Part, End};
ghost use Rattle.ro_journal.specs.declared.How.{How};
ghost use Rattle.ro_legal.specs.declared.actions.Action.TheVariants as act;
ghost use Rattle.ro_journal.specs.declared.Lease.{Lease};
ghost use Rattle.ro_journal.specs.Leases.{lease_to};
ghost use Rattle.ro_legal.specs.Parts.{Lent, Pages, most_misses, run_with};
ghost use Rattle.ro_legal.specs.Core.{Job, Core, opening_core, is_going, is_idle, is_out, is_lendable, may_vote, may_free, nothing_lent};
ghost use Rattle.ro_legal.specs.Legal.{Legal, MayEnd, may_scrub, replay};
ghost use Rattle.ro_legal.specs.Waits.{IsOfAnother, votes_in, waited_of};
ghost use Rattle.ro_legal.specs.Action.{threads_made, is_scrub_due, next_action, EachIsNext};
ghost use Rattle.ro_legal.specs.Laws.{NothingFor, NotLendable, Names, HasLease, AreBeside, thread_in, Answers, LeavesBlocked, LetsGoOn, hits, has_come, parts_since, LeavesThread};
ghost use Rattle.ro_legal.specs.Turns.{TakesTurns};
ghost use Rattle.ro_legal.specs.Cooperative.{Legal as LegalTogether, replay as replay_together};
ghost use Rattle.ro_legal.specs.Kept.{KeepsReplicas, KeepsMutexes, HasPeer, NoFurtherAhead};
ghost use Rattle.ro_kernel.specs.Kernel.{Kernel, lives_on, ranges_in};
ghost use Rattle.ro_plain.specs.Machine.{setup_of};
ghost use Rattle.ro_peer.specs.Peers.{Peer};

/// Nothing follows an end.
pub fn end_is_last()
    ensures { (job : Job) (before behind : List Entry) (how : How) → Legal job (before ++ End how ∷ behind) → behind ≡ [] }
{}

/// One order of grants: a replica's thread that stands at a call, of a mutex or any other, goes on at nothing but the
/// vote or the free that answers it, or where its replica becomes a copy of another. A vote on a call that blocks leaves it
/// where it stands, but for its count since the last vote.
pub fn one_grant_order()
    ensures { (job : Job) (journal : List Entry) (entry : Entry) → Legal job (journal ++ entry ∷ []) → (replica thread : ℕ) (stands : Thread) (call : Call) → thread_in (replay job journal) replica thread ≡ Some stands → stands.stop ≡ Some (Calls call) → (thread_in (replay job (journal ++ entry ∷ [])) replica thread ≡ Some stands) ⊎ (LeavesBlocked entry thread × (thread_in (replay job (journal ++ entry ∷ [])) replica thread ≡ Some (record stands { since = 0 }))) ⊎ LetsGoOn entry replica thread }
{}

/// A grant is one for all replicas: behind the vote or the free that answers a thread's call, of a mutex or any other, the
/// thread goes on in every replica, unless the program ended. With `one_grant_order`, the order in which a replica's threads
/// get a mutex is the order of these entries, which is the kernel's, unless the replica becomes a copy between.
pub fn granted_everywhere()
    ensures { (job : Job) (journal : List Entry) (entry : Entry) → Legal job (journal ++ entry ∷ []) → (thread : ℕ) → Answers entry thread → (replay job (journal ++ entry ∷ [])).due ≡ None → (number : ℕ) (replica : Replica) → slice_get (replay job (journal ++ entry ∷ [])).replicas number ≡ Some replica → stop_of replica thread ≡ None }
{}

/// Each fault whose moment has come was struck once, and the others of its replica wait.
pub fn struck_once()
    ensures waiting { (job : Job) (journal : List Entry) → Legal job journal → (number : ℕ) (replica : Replica) → slice_get (replay job journal).replicas number ≡ Some replica → replica.waiting ≡ filter (λ fault. (fault.replica == number) && not (has_come journal fault)) job.faults }
    ensures struck { (job : Job) (journal : List Entry) → Legal job journal → (number : ℕ) (replica : Replica) → slice_get (replay job journal).replicas number ≡ Some replica → hits journal number ≡ length (filter (λ fault. (fault.replica == number) && has_come journal fault) job.faults) }
{}

/// No other bit flips: a run in which no fault was struck is the run of a replica that has none.
pub fn no_other_flip()
    ensures { (layout : Layout) (watchdog count thread : ℕ) (replica : Replica) (ran : RanTo) → run_of layout watchdog count replica thread ≡ Some ran → ran.hit ≡ 0 → run_of layout watchdog count (record replica { waiting = [] }) thread ≡ Some (record { replica = record ran.replica { waiting = [] }; hit = 0 }) }
{}

/// The same pages are backed in every replica.
pub fn same_pages()
    ensures { (job : Job) (journal : List Entry) → Legal job journal → (number other : ℕ) (one two : Replica) → slice_get (replay job journal).replicas number ≡ Some one → slice_get (replay job journal).replicas other ≡ Some two → one.backed ≡ two.backed }
{}

/// A thread stands at a page fault only while its page is not backed.
pub fn page_faults_wait()
    ensures { (job : Job) (journal : List Entry) → Legal job journal → (number thread page : ℕ) (replica : Replica) → slice_get (replay job journal).replicas number ≡ Some replica → stop_of replica thread ≡ Some (PageFault page) → replica.backed page ≡ false }
{}

/// What comes next may be done: the thread may be voted on, freed or lent, the replicas may be scrubbed, the end may come, or
/// a lease is out that has to come back first.
pub fn next_may_be_done()
    ensures vote { (job : Job) (core : Core) (thread : ℕ) → next_action job core ≡ act.Vote thread → may_vote core thread ≡ true }
    ensures free { (job : Job) (core : Core) (thread : ℕ) → next_action job core ≡ act.Free thread → may_free job core thread ≡ true }
    ensures scrub { (job : Job) (core : Core) → next_action job core ≡ act.Scrub → may_scrub core ≡ true }
    ensures lend { (job : Job) (core : Core) (replica thread : ℕ) → next_action job core ≡ act.Lend replica thread → (is_going core ≡ true) × (is_lendable core replica thread ≡ true) }
    ensures end { (job : Job) (core : Core) (how : How) → next_action job core ≡ act.End how → (core.ended ≡ None) × MayEnd job core how }
    ensures wait { (job : Job) (core : Core) → next_action job core ≡ act.Wait → nothing_lent core ≡ false }
    ensures over { (job : Job) (core : Core) → next_action job core ≡ act.Over → is_some core.ended ≡ true }
{}

/// A lease lasts: an entry that doesn't name its driver leaves it out, and what it has of its replica as it was.
pub fn leases_last()
    ensures { (job : Job) (journal : List Entry) (entry : Entry) → Legal job (journal ++ entry ∷ []) → (driver by : ℕ) → Names by entry → by ≢ driver → (lease : Lease) (lent : Lent) (replica : Replica) → HasLease (replay job journal) driver lease lent replica → HasLease (replay job (journal ++ entry ∷ [])) driver lease lent replica }
{}

/// Two leases that are out are of two replicas, or of two threads that were lent pages, of which both have none that may be
/// written.
pub fn leases_are_apart()
    ensures { (job : Job) (journal : List Entry) → Legal job journal → (one other : Lease) → is_out (replay job journal) one ≡ true → is_out (replay job journal) other ≡ true → one ≢ other → AreBeside (ranges_in (setup_of job.program) (replay job journal).kernel) (replay job journal).lent one other }
{}

/// A driver holds one lease at the most: where its lease came back it holds none.
pub fn leases_come_back()
    ensures put { (job : Job) (journal : List Entry) (lease : Lease) (count hit : ℕ) → Legal job (journal ++ Put lease count hit ∷ []) → is_idle (replay job (journal ++ Put lease count hit ∷ [])) lease.driver ≡ true }
    ensures part { (job : Job) (journal : List Entry) (lease : Lease) (count hit : ℕ) → Legal job (journal ++ Part lease count hit ∷ []) → is_idle (replay job (journal ++ Part lease count hit ∷ [])) lease.driver ≡ true }
{}

/// The run of a lease of some pages is a run of its whole replica, as that is when the lease comes back, in which no fault is
/// struck.
pub fn pages_run_as_the_whole()
    ensures { (layout : Layout) (watchdog count thread : ℕ) (pages : List ℕ) (replica : Replica) (ran : RanTo) → run_with layout watchdog (Pages pages) count replica thread ≡ Some ran → (run_of layout watchdog count replica thread ≡ Some ran) × (ran.hit ≡ 0) }
{}

/// A thread misses at most nine pages in a replica from one of its votes to the next, and the core keeps how many. Behind nine its
/// leases are of the whole replica, so no page goes to and fro for ever between two threads.
pub fn misses_are_few()
    ensures few { (job : Job) (journal : List Entry) → Legal job journal → (replica thread : ℕ) → parts_since journal replica thread ≤ most_misses + 1 }
    ensures counted { (job : Job) (journal : List Entry) → Legal job journal → (replica thread : ℕ) → (replay job journal).misses replica thread ≡ parts_since journal replica thread }
{}

/// Behind a part no two more of the same thread come in a row in which it executed nothing, where no entry between them changes
/// anything for it. So a thread that came back for the want of a page goes on by its second lease from then on at the latest.
pub fn no_three_parts()
    ensures { (job : Job) (replica thread : ℕ) (before first second : List Entry) (one two three count hit_one hit_two hit_three : ℕ) → Legal job (before ++ Part (lease_to one replica thread) count hit_one ∷ (first ++ Part (lease_to two replica thread) 0 hit_two ∷ (second ++ Part (lease_to three replica thread) 0 hit_three ∷ []))) → All (LeavesThread replica thread) first → All (LeavesThread replica thread) second → ⊥ }
{}

/// Where no driver holds a lease, nothing is lent.
pub fn idle_drivers_hold_nothing()
    ensures { (job : Job) (journal : List Entry) → Legal job journal → ((driver : ℕ) → driver < job.settings.drivers → is_idle (replay job journal) driver ≡ true) → (replay job journal).leases ≡ [] }
{}

/// With one driver, what it takes comes back in the next entry.
pub fn one_driver_takes_turns()
    ensures { (job : Job) → job.settings.drivers ≡ 1 → (journal : List Entry) → Legal job journal → (replay job journal).leases ≡ [] → TakesTurns journal }
{}

/// Scrubs that are asked for come in time: where each entry is what the core does next, the plan grows by no more than the
/// scrub's number and the watchdog's together from one scrub to the next.
pub fn scrubs_come_in_time()
    ensures { (job : Job) → 0 < job.settings.scrub → (journal : List Entry) → Legal job journal → EachIsNext job (opening_core job) journal → (replay job journal).steps ≤ (replay job journal).scrubbed + job.settings.scrub + job.settings.watchdog }
{}

/// The core keeps how long each thread has waited, by what its journal says.
pub fn waits_are_counted()
    ensures { (job : Job) (journal : List Entry) → Legal job journal → (thread : ℕ) → (replay job journal).waited thread ≡ waited_of journal thread }
{}

/// A thread that has waited for 64 votes of others comes before each that waited for fewer than it did: where such a one is
/// voted on next nothing can be done for the thread, and where such a one is lent next, and no scrub is due, the thread can't
/// be voted on or lent; and of those that can be freed such a one is not freed before it. It holds of a core of either mode.
pub fn who_waited_comes_first()
    ensures vote { (job : Job) (core : Core) (thread : ℕ) → next_action job core ≡ act.Vote thread → (other : ℕ) → other < threads_made core → 64 ≤ core.waited other → core.waited thread < core.waited other → NothingFor job core other }
    ensures free { (job : Job) (core : Core) (thread : ℕ) → next_action job core ≡ act.Free thread → (other : ℕ) → other < threads_made core → 64 ≤ core.waited other → core.waited thread < core.waited other → may_free job core other ≡ false }
    ensures lend { (job : Job) (core : Core) (replica thread : ℕ) → next_action job core ≡ act.Lend replica thread → is_scrub_due job core ≡ false → (other : ℕ) → other < threads_made core → 64 ≤ core.waited other → core.waited thread < core.waited other → (may_vote core other ≡ false) × NotLendable core other }
{}

/// No thread that could go on waits for more than 79 votes of others: where each entry is what the core does next, and a
/// thread lives and is not blocked, so many votes come at the most before one of its own.
pub fn waits_are_bounded()
    ensures { (job : Job) (before row : List Entry) → Legal job (before ++ row) → EachIsNext job (opening_core job) (before ++ row) → (thread : ℕ) → lives_on (replay job before).kernel thread ≡ true → (replay job before).blocked thread ≡ None → All (IsOfAnother thread) row → votes_in row ≤ 79 }
{}

/// What every legal cooperative journal of a run without faults keeps of the replicas, the kernel and the counts.
pub fn cooperative_journals_keep_replicas()
    ensures { (job : Job) (journal : List Entry) → job.faults ≡ [] → LegalTogether job journal → KeepsReplicas job (replay_together job journal) }
{}

/// What every legal cooperative journal keeps of the mutexes that replicas answer for.
pub fn cooperative_journals_keep_mutexes()
    ensures { (job : Job) (journal : List Entry) → LegalTogether job journal → KeepsMutexes job (replay_together job journal) }
{}

/// A lease of a cooperative run lasts: an entry that doesn't name its driver leaves it out, and its peer and the kernel as they
/// were.
pub fn cooperative_leases_last()
    ensures lasts { (job : Job) (journal : List Entry) (entry : Entry) → job.faults ≡ [] → LegalTogether job (journal ++ entry ∷ []) → (driver by : ℕ) → Names by entry → by ≢ driver → (lease : Lease) (kernel : Kernel) (peer : Peer) → HasPeer (replay_together job journal) driver lease kernel peer → HasPeer (replay_together job (journal ++ entry ∷ [])) driver lease kernel peer }
    ensures ranks { (job : Job) (journal : List Entry) (entry : Entry) → LegalTogether job (journal ++ entry ∷ []) → NoFurtherAhead (replay_together job journal).sides (replay_together job (journal ++ entry ∷ [])).sides }
{}

/// A driver of a cooperative run holds one lease at the most: where its lease came back it holds none. Where no driver holds
/// one, nothing is lent.
pub fn cooperative_leases_come_back()
    ensures put { (job : Job) (journal : List Entry) (lease : Lease) (count hit : ℕ) → LegalTogether job (journal ++ Put lease count hit ∷ []) → is_idle (replay_together job (journal ++ Put lease count hit ∷ [])) lease.driver ≡ true }
    ensures part { (job : Job) (journal : List Entry) (lease : Lease) (count hit : ℕ) → LegalTogether job (journal ++ Part lease count hit ∷ []) → is_idle (replay_together job (journal ++ Part lease count hit ∷ [])) lease.driver ≡ true }
    ensures idle { (job : Job) (journal : List Entry) → LegalTogether job journal → ((driver : ℕ) → driver < job.settings.drivers → is_idle (replay_together job journal) driver ≡ true) → (replay_together job journal).leases ≡ [] }
{}

/// With one driver of a cooperative run, what it takes comes back in the next entry.
pub fn cooperative_drivers_take_turns()
    ensures { (job : Job) → job.settings.drivers ≡ 1 → (journal : List Entry) → LegalTogether job journal → (replay_together job journal).leases ≡ [] → TakesTurns journal }
{}
