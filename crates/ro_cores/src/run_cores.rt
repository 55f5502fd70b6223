//! What a session needs of a core, be it one that keeps the rules of votes or those of a cooperative run, and what drivers need
//! to run what it lends.
ghost use Rattle.std.specs.Prelude.{◌≡◌, ◌≢◌, ◌⊎◌, ◌<◌, ◌≤◌, ◌^◌, ℕ, [], true, Some, IfOk, OnErr, OnOk, length, slice_get};
ghost use Rattle.ro_journal.specs.declared.Entry.TheVariants.{Take, End};
ghost use Rattle.ro_journal.specs.declared.How.TheVariants.{Differ, NoMajority};
ghost use Rattle.ro_journal.specs.Plan.{outcome_of};
ghost use Rattle.ro_settings.specs.Ranges.{InRange};
ghost use Rattle.ro_legal.specs.declared.actions.Action.TheVariants as act;
ghost use Rattle.ro_legal.specs.Core.{may_vote, may_free, views_of};
ghost use Rattle.ro_legal.specs.Legal.{MayTake, EndsAlone, EndsSink};
ghost use Rattle.ro_legal.specs.Action.{next_action as next};
ghost use Rattle.ro_legal.specs.Decides.{IsSplit};
ghost use Rattle.ro_legal.specs.Rules.{IsFit, Legal, IsAllowed, IsNext, DecidesVote, DecidesFree, DecidesScrub};
ghost use Rattle.ro_core.specs.Seen.{Appends, Stays, IsOfMajority};
ghost use Rattle.ro_cores.specs.Cores.{left_by, LastWrote, HasRoom, KeepsViews};
ghost use Rattle.ro_cores.specs.Loans.{CanGo, IsLent, Gives, MayReturn, SharesIn, IsShare, IsUnused, AgreesWith, entry_of, lease_in};
ghost use Rattle.ro_orders.specs.Copies.{Rows};

use ro_event::View;
use ro_image::Executable;
use ro_journal::{Entry, How, Lease};
use ro_legal::Action;
use ro_settings::Settings;
use std::alloc::{AllocError, Global};

/// What a core leaves behind.
pub struct Remains {
    /// The image with which it was opened.
    pub image: Executable,
    /// How the run ended, if it did.
    pub how: Option<How>,
    /// Where it ended by a vote of views that came to nothing, those views in the order of the replicas.
    pub views: Vec<View>,
    pub journal: Vec<Entry>,
}

/// How many leases can be out at once.
#[derive(Clone, Copy, Debug, PartialEq, Eq)]
pub struct Lendable {
    /// While as many threads live.
    pub most: u32,
    /// While those that are blocked on calls stay so.
    pub now: u32,
}

/// A core that keeps the rules of a run, and what drivers run for it.
pub trait RunCore: Sized {
    ghost use Rattle.std.specs.Prelude.{List, ℕ};
    ghost use Rattle.ro_legal.specs.Modes.{Mode};
    ghost use Rattle.ro_core.specs.Seen.{CoreOf};
    ghost use Rattle.ro_cores.specs.Loans.{LentOf, BackOf, ShareOf, SharedOf};

    /// What goes out with a lease.
    type Lent;

    /// What comes back of it.
    type Back;

    /// What all drivers of a run share.
    type Shared;

    /// A driver's part in that.
    type Share;

    /// What no driver has, and is kept until all shares come back.
    type Spare;

    /// Which payload a vote wrote. With a bound here, or above, no core could be shared among threads.
    type Writer;

    // The mode whose rules it keeps.
    ghost mode: { Mode };

    // The core as one whose bytes go nowhere.
    ghost seen: { Self → CoreOf };

    // It is in order.
    ghost holds: { Self → Type 0 };

    ghost lent_of: { Self.Lent → LentOf };

    ghost back_of: { Self.Back → BackOf };

    ghost shared_of: { Self.Shared → SharedOf };

    ghost share_of: { Self.Share → ShareOf };

    // It is kept beside what is shared, and the shares of so many drivers.
    ghost is_spare: { Self.Shared → Self.Spare → (drivers : ℕ) → Type 0 };

    // The bytes of a payload, which the last vote wrote.
    ghost payload_of: { Self → Self.Writer → List ℕ };

    ghost has_payload: { Self → Self.Writer → Type 0 };

    /// What comes next.
    fn next_action(&self) -> Action
        requires holds { holds self.now }
        ensures next { result ≡ next (seen self.now).job (left_by (seen self.now)) };

    /// Makes room for a take, its return, the returns of the leases that are out, and the end.
    ///
    /// # Errors
    /// Where there is no memory.
    fn room(&mut self) -> Result<(), AllocError>
        requires holds { holds self.old }
        ensures holds { holds self.new }
        ensures stays { Stays (seen self.old) (seen self.new) }
        ensures room { OnOk result (HasRoom (seen self.new)) };

    /// Lends what a lease is for.
    fn lend(&mut self, lease: Lease) -> Self::Lent
        requires holds { holds self.old }
        requires may { MayTake (seen self.old).job (left_by (seen self.old)) lease }
        requires room { HasRoom (seen self.old) }
        ensures holds { holds self.new }
        ensures entry { Appends (seen self.old) (seen self.new) (Take lease) }
        ensures output { (left_by (seen self.new)).output ≡ (left_by (seen self.old)).output }
        ensures lent { IsLent (seen self.old).job (seen self.old).journal (lent_of result) }
        ensures lease { lease_in (lent_of result) ≡ lease };

    /// The lease of what was lent.
    fn lease(lent: &Self::Lent) -> Lease
        ensures { result ≡ lease_in (lent_of lent.now) };

    /// The entry with which a lease comes back.
    fn entry(&self, back: &Self::Back) -> Entry
        requires holds { holds self.now }
        requires returns { MayReturn (seen self.now).job (seen self.now).journal (back_of back.now) }
        ensures { result ≡ entry_of (left_by (seen self.now)) (back_of back.now) };

    /// Puts back what a lease has become.
    fn give_back(&mut self, back: Self::Back)
        requires holds { holds self.old }
        requires returns { MayReturn (seen self.old).job (seen self.old).journal (back_of back) }
        ensures holds { holds self.new }
        ensures entry { Appends (seen self.old) (seen self.new) (entry_of (left_by (seen self.old)) (back_of back)) }
        ensures output { (left_by (seen self.new)).output ≡ (left_by (seen self.old)).output };

    /// Votes on a thread that stands still in every replica: its event is done once, and the entry that was appended is answered,
    /// with what was written. Where the views come to nothing, or the limit of steps would be passed, that is an end.
    ///
    /// # Errors
    /// Where there is no memory; nothing has changed then.
    fn vote(&mut self, thread: u32) -> Result<(Entry, Self::Writer), AllocError>
        requires holds { holds self.old }
        requires may { may_vote (left_by (seen self.old)) thread ≡ true }
        ensures holds { holds self.new }
        ensures entry { IfOk result (λ voted. IsAllowed (seen self.old).job (left_by (seen self.old)) voted.0 × DecidesVote (seen self.old).job (left_by (seen self.old)) thread voted.0 × Appends (seen self.old) (seen self.new) voted.0) }
        ensures writer { IfOk result (λ voted. has_payload self.new voted.1) }
        ensures wrote { IfOk result (λ voted. LastWrote (seen self.new) (left_by (seen self.old)).output (payload_of self.new voted.1)) }
        ensures majority { IfOk result (λ voted. (payload_of self.new voted.1 ≡ []) ⊎ IsOfMajority (views_of (seen self.old).job (left_by (seen self.old)) thread) (payload_of self.new voted.1)) }
        ensures shown { IfOk result (λ voted. IsSplit voted.0 → (seen self.new).views ≡ views_of (seen self.old).job (left_by (seen self.old)) thread) }
        ensures err { OnErr result (Stays (seen self.old) (seen self.new)) };

    /// The bytes that a vote wrote.
    fn payload(&self, writer: Self::Writer) -> &[u8]
        requires { has_payload self.now writer }
        ensures { result.now ≡ payload_of self.now writer };

    /// Serves the call on which a thread is blocked, and answers the entry that was appended. Where the limit of steps would
    /// be passed, that is an end.
    ///
    /// # Errors
    /// Where there is no memory; nothing has changed then.
    fn free(&mut self, thread: u32) -> Result<Entry, AllocError>
        requires holds { holds self.old }
        requires may { may_free (seen self.old).job (left_by (seen self.old)) thread ≡ true }
        ensures holds { holds self.new }
        ensures entry { IfOk result (λ entry. IsAllowed (seen self.old).job (left_by (seen self.old)) entry × DecidesFree (seen self.old).job (left_by (seen self.old)) thread entry × Appends (seen self.old) (seen self.new) entry) }
        ensures output { OnOk result ((left_by (seen self.new)).output ≡ (left_by (seen self.old)).output) }
        ensures err { OnErr result (Stays (seen self.old) (seen self.new)) };

    /// Compares the replicas whole, where that comes next, and answers the entry that was appended. Where no more than half
    /// are the same, that is an end.
    ///
    /// # Errors
    /// Where there is no memory; nothing has changed then.
    fn scrub(&mut self) -> Result<Entry, AllocError>
        requires holds { holds self.old }
        requires next { next (seen self.old).job (left_by (seen self.old)) ≡ act.Scrub }
        ensures holds { holds self.new }
        ensures entry { IfOk result (λ entry. IsAllowed (seen self.old).job (left_by (seen self.old)) entry × DecidesScrub (seen self.old).job (left_by (seen self.old)) entry × Appends (seen self.old) (seen self.new) entry) }
        ensures output { OnOk result ((left_by (seen self.new)).output ≡ (left_by (seen self.old)).output) }
        ensures no_views { IfOk result (λ entry. IsSplit entry → (seen self.new).views ≡ []) }
        ensures err { OnErr result (Stays (seen self.old) (seen self.new)) };

    /// Ends the run so, where this end is due or comes alone.
    fn end(&mut self, how: How)
        requires holds { holds self.old }
        requires now { (next (seen self.old).job (left_by (seen self.old)) ≡ act.End how) ⊎ EndsAlone (seen self.old).job (left_by (seen self.old)) how }
        ensures holds { holds self.new }
        ensures allowed { IsAllowed (seen self.old).job (left_by (seen self.old)) (End how) }
        ensures next { (next (seen self.old).job (left_by (seen self.old)) ≡ act.End how) ⊎ EndsSink (left_by (seen self.old)) how → IsNext (seen self.old).job (left_by (seen self.old)) (End how) }
        ensures appends { Appends (seen self.old) (seen self.new) (End how) };

    /// How many entries there are, of which a journal can have but so many. It shows what holds of a core at any time.
    fn entries(&self) -> u64
        requires holds { holds self.now }
        ensures entries { result ≡ length (seen self.now).journal }
        ensures few { length (seen self.now).journal < 2 ^ 63 }
        ensures legal { Legal (seen self.now).job (seen self.now).journal }
        ensures in_range { InRange (seen self.now).job.settings }
        ensures fit { IsFit (seen self.now).job }
        ensures mode { (seen self.now).job.settings.mode ≡ mode };

    /// What it was asked for.
    fn settings(&self) -> Settings
        ensures { result ≡ (seen self.now).job.settings };

    /// How many leases can be out at once. No clause speaks of it: it says which drivers are worth a wake.
    fn lendable(&self) -> Lendable;

    /// How many bytes the events wrote, but for those that a failing sink did not take at the end.
    fn bytes(&self) -> u64
        requires holds { holds self.now }
        ensures { result ≡ length (left_by (seen self.now)).output };

    /// How many of them the last entry's event did.
    fn wrote(&self) -> u32
        requires holds { holds self.now }
        ensures wrote { result ≡ (left_by (seen self.now)).wrote }
        ensures within { result ≤ length (left_by (seen self.now)).output };

    /// Hands out the image, how the run ended, if it did, the views of a vote that came to nothing, and the journal.
    fn finish(self) -> Remains
        requires holds { holds self }
        ensures image { result.image ≡ (seen self).job.program.image }
        ensures how { result.how ≡ outcome_of (seen self).journal }
        ensures views { KeepsViews (seen self).job (seen self).journal result.views.items }
        ensures kept { (outcome_of (seen self).journal ≡ Some Differ) ⊎ (outcome_of (seen self).journal ≡ Some NoMajority) → result.views.items ≡ (seen self).views }
        ensures no_views { outcome_of (seen self).journal ≢ Some Differ → outcome_of (seen self).journal ≢ Some NoMajority → result.views.items ≡ [] }
        ensures journal { result.journal.items ≡ (seen self).journal };

    /// What the drivers share, the share of each, by their numbers, and what is kept beside.
    ///
    /// # Errors
    /// Where there is no memory.
    fn open(
        alloc: Global,
        drivers: u32,
    ) -> Result<(Self::Shared, Vec<Self::Share>, Self::Spare), AllocError>
        requires { drivers ≤ 8 }
        ensures shared { IfOk result (λ made. SharesIn mode (shared_of made.0)) }
        ensures count { IfOk result (λ made. length made.1.items ≡ drivers) }
        ensures each { IfOk result (λ made. (number : ℕ) (one : Self.Share) → slice_get made.1.items number ≡ Some one → IsShare (shared_of made.0) number (share_of one) × IsUnused (share_of one)) }
        ensures spare { IfOk result (λ made. is_spare made.0 made.2 drivers) };

    /// Runs the thread of a lease by its driver's share.
    fn run(shared: &Self::Shared, lent: Self::Lent, share: Self::Share) -> (Self::Back, Self::Share)
        requires goes { CanGo (lent_of lent) }
        requires share { (number : ℕ) × IsShare (shared_of shared.now) number (share_of share) }
        ensures { Gives (lent_of lent) (share_of share) (back_of result.0) (share_of result.1) };

    /// Takes the shares back. What any of them knows stands in the rows of them all.
    fn close(shared: Self::Shared, shares: Vec<Self::Share>, spare: Self::Spare)
        requires each { (number : ℕ) (one : Self.Share) → slice_get shares.items number ≡ Some one → IsShare (shared_of shared) number (share_of one) }
        requires spare { is_spare shared spare (length shares.items) }
        ensures { (rows : Rows) × ((number : ℕ) (one : Self.Share) → slice_get shares.items number ≡ Some one → AgreesWith rows (share_of one)) };
}
