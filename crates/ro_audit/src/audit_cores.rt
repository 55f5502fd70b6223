//! What an audit needs of a core, be it one that keeps the rules of votes or those of a cooperative run.
ghost use Rattle.std.specs.Prelude.{◌≡◌, ◌↔◌, ◌++◌, ◌∷◌, [], true, IfErr, IfOk, IfSome, IsTrue, MatchResult, OnErr, OnOk, Some, length, slice_get};
ghost use Rattle.ro_journal.specs.declared.How.{How as HowSeen};
ghost use Rattle.ro_settings.specs.Ranges.{InRange};
ghost use Rattle.ro_replica.specs.Seen.{AreFaults, replica_of};
ghost use Rattle.ro_plans.specs.Plans.{plan_in};
ghost use Rattle.ro_legal.specs.Core.{Job, is_going, may_vote, may_free};
ghost use Rattle.ro_legal.specs.Jobs.{job_of};
ghost use Rattle.ro_legal.specs.Legal.{MayTake, EndsFree, is_stuck};
ghost use Rattle.ro_legal.specs.Decides.{IsSplit};
ghost use Rattle.ro_legal.specs.Rules.{IsFit, IsAllowed, EndsVote, EndsScrub, DecidesScrub};
ghost use Rattle.ro_core.specs.Seen.{Appends, Stays};
ghost use Rattle.ro_cores.specs.Cores.{left_by};
ghost use Rattle.ro_cores.specs.Loans.{MayReturn, Returns, entry_of, lease_in};
ghost use Rattle.ro_audit.specs.Audits.{IsRefused, scrubs};
ghost use Rattle.ro_audit.specs.Following.{KnowsGot, Lends};

use crate::follower::Why;
use ro_cores::RunCore;
use ro_event::Call;
use ro_faults::Fault;
use ro_image::Executable;
use ro_journal::{Entry, How, Lease};
use ro_kernel::Kernel;
use ro_replica::ReplicaBox;
use ro_settings::Settings;
use std::alloc::{AllocError, Global};

/// What an audit asks of a core, beside what a session needs of it.
pub trait AuditCore: RunCore<Lent: Drop> {
    ghost use Rattle.ro_orders.specs.Copies.{Rows};

    /// Who got each mutex at each rank, by the entries that were followed; nothing where votes decide.
    type Got: Drop;

    // The rows of what was got, by the mutexes' numbers.
    ghost got_of: { Self.Got → Rows };

    /// Opens a run of the program of an image, with an input and faults to be struck.
    ///
    /// # Errors
    /// Where there is no memory; the image comes back.
    fn begin(
        alloc: Global,
        image: Executable,
        input: &[u8],
        faults: &[Fault],
        settings: Settings,
    ) -> Result<Self, Executable>
        requires settings { InRange settings }
        requires faults { AreFaults faults.now }
        requires mode { settings.mode ≡ Self.mode }
        requires fit { IsFit (job_of image input.now faults.now settings) }
        ensures holds { IfOk result (λ core. Self.holds core) }
        ensures job { IfOk result (λ core. (Self.seen core).job ≡ job_of image input.now faults.now settings) }
        ensures journal { IfOk result (λ core. (Self.seen core).journal ≡ []) }
        ensures back { IfErr result (λ given. given ≡ image) };

    /// What was got by no entries.
    fn nothing_got(alloc: Global) -> Self::Got
        ensures { (job : Job) → KnowsGot job [] (got_of result) };

    /// How the run ended, if it did.
    fn ended(&self) -> Option<How>
        requires holds { Self.holds self.now }
        ensures { result ≡ (left_by (Self.seen self.now)).ended };

    /// Whether a thread of a replica may be lent to a driver.
    fn may_take(&self, lease: Lease) -> bool
        requires holds { Self.holds self.now }
        ensures { IsTrue result ↔ MayTake (Self.seen self.now).job (left_by (Self.seen self.now)) lease };

    /// Whether a thread stands still in every replica, and is not blocked.
    fn may_vote(&self, thread: u32) -> bool
        requires holds { Self.holds self.now }
        ensures { result ≡ may_vote (left_by (Self.seen self.now)) thread };

    /// Whether the call on which a thread is blocked would be done now.
    fn may_free(&self, thread: u32) -> bool
        requires holds { Self.holds self.now }
        ensures { result ≡ may_free (Self.seen self.now).job (left_by (Self.seen self.now)) thread };

    /// Whether the replicas may be compared whole.
    fn may_scrub(&self) -> bool
        requires holds { Self.holds self.now }
        ensures { result ≡ scrubs (Self.seen self.now).job (left_by (Self.seen self.now)) };

    /// Whether nothing can be done.
    fn is_stuck(&self) -> bool
        requires holds { Self.holds self.now }
        ensures { result ≡ is_stuck (Self.seen self.now).job (left_by (Self.seen self.now)) };

    /// Whether no end has come, and none must.
    fn is_going(&self) -> bool
        requires holds { Self.holds self.now }
        ensures { result ≡ is_going (left_by (Self.seen self.now)) };

    /// The end that would come in the place of a vote on a thread, if one would.
    fn vote_end(&mut self, thread: u32) -> Option<How>
        requires holds { Self.holds self.old }
        requires may { may_vote (left_by (Self.seen self.old)) thread ≡ true }
        ensures holds { Self.holds self.new }
        ensures stays { Stays (Self.seen self.old) (Self.seen self.new) }
        ensures end { (how : HowSeen) → (result ≡ Some how) ↔ EndsVote (Self.seen self.old).job (left_by (Self.seen self.old)) thread how };

    /// The end that would come in the place of a free, if one would.
    fn free_end(&self) -> Option<How>
        requires holds { Self.holds self.now }
        ensures { (how : HowSeen) → (result ≡ Some how) ↔ EndsFree (Self.seen self.now).job (left_by (Self.seen self.now)) how };

    /// The end that would come in the place of a scrub, if one would.
    fn scrub_end(&self) -> Option<How>
        requires holds { Self.holds self.now }
        requires may { scrubs (Self.seen self.now).job (left_by (Self.seen self.now)) ≡ true }
        ensures { (how : HowSeen) → (result ≡ Some how) ↔ EndsScrub (Self.seen self.now).job (left_by (Self.seen self.now)) how };

    /// Compares the replicas whole, wherever they may be, and answers the entry that was appended. Where no more than half are the
    /// same, that is an end.
    ///
    /// # Errors
    /// Where there is no memory; nothing has changed then.
    fn compare(&mut self) -> Result<Entry, AllocError>
        requires holds { Self.holds self.old }
        requires may { scrubs (Self.seen self.old).job (left_by (Self.seen self.old)) ≡ true }
        ensures holds { Self.holds self.new }
        ensures entry { IfOk result (λ entry. IsAllowed (Self.seen self.old).job (left_by (Self.seen self.old)) entry × DecidesScrub (Self.seen self.old).job (left_by (Self.seen self.old)) entry × Appends (Self.seen self.old) (Self.seen self.new) entry) }
        ensures output { OnOk result ((left_by (Self.seen self.new)).output ≡ (left_by (Self.seen self.old)).output) }
        ensures no_views { IfOk result (λ entry. IsSplit entry → (Self.seen self.new).views ≡ []) }
        ensures err { OnErr result (Stays (Self.seen self.old) (Self.seen self.new)) };

    /// How many steps the plan has so far.
    fn steps(&self) -> u64
        requires holds { Self.holds self.now }
        ensures { result ≡ length (plan_in Self.mode (Self.seen self.now).journal) };

    /// The kernel.
    fn kernel(&self) -> &Kernel
        ensures kernel { Self.holds self.now → result.now.kernel ≡ (left_by (Self.seen self.now)).kernel };

    /// The call on which a thread is blocked, if it is.
    fn blocked_call(&self, thread: u32) -> Option<Call>
        ensures { Self.holds self.now → result ≡ (left_by (Self.seen self.now)).blocked thread };

    /// A replica, where there is one of this number and it is not lent.
    fn replica(&self, number: u32) -> Option<&ReplicaBox>
        ensures there { Self.holds self.now → IfSome result (λ replica. slice_get (left_by (Self.seen self.now)).replicas number ≡ Some (replica_of replica.now)) };

    /// The thread that holds a mutex, if one does: where replicas answer for it, in the first of them that is not lent, and else by
    /// the kernel. That is told without a clause.
    fn owner(&self, mutex: u32) -> Option<u32>;

    /// The mutex at whose lock a thread waits in a replica that is not lent, where it waits there without a vote. That is told
    /// without a clause.
    fn waits_at(&self, thread: u32) -> Option<u32>;

    /// Runs what was lent for as long as an entry tells, and answers it to be put back, or why it does not come back so. What it got
    /// counts among what was got, where it comes back.
    ///
    /// # Errors
    /// Where there is no memory.
    fn come_back(
        &self,
        got: &mut Self::Got,
        lent: Self::Lent,
        entry: &Entry,
    ) -> Result<Result<Self::Back, Why>, AllocError>
        requires holds { Self.holds self.now }
        requires returns { Returns (lease_in (Self.lent_of lent)) entry.now }
        requires lends { Lends (Self.seen self.now).job (left_by (Self.seen self.now)) (Self.lent_of lent) }
        requires knows { KnowsGot (Self.seen self.now).job (Self.seen self.now).journal (got_of got.old) }
        ensures returns { IfOk result (λ came. MatchResult came (λ back. MayReturn (Self.seen self.now).job (Self.seen self.now).journal (Self.back_of back) × (entry_of (left_by (Self.seen self.now)) (Self.back_of back) ≡ entry.now)) (λ why. IsRefused (Self.seen self.now).job (Self.seen self.now).journal entry.now why)) }
        ensures knows { IfOk result (λ came. OnOk came (KnowsGot (Self.seen self.now).job ((Self.seen self.now).journal ++ entry.now ∷ []) (got_of got.new))) };
}
