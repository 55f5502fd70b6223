//! A session: a core and the sink of its bytes. A vote's bytes are sent here, and what a failing sink took is kept here until
//! the end that it makes has come.
ghost use Rattle.std.specs.Prelude.{◌≡◌, ◌≢◌, ◌⊎◌, ◌<◌, ◌^◌, [], ℕ, List, Some, None, IsSome, IfOk, OnErr, OnOk, IsTrue, length};
ghost use Rattle.ro_journal.specs.declared.How.TheVariants.{Differ, NoMajority};
ghost use Rattle.ro_journal.specs.declared.Entry.TheVariants.{Take, End};
ghost use Rattle.ro_journal.specs.Plan.{outcome_of};
ghost use Rattle.ro_settings.specs.Ranges.{InRange};
ghost use Rattle.ro_legal.specs.declared.actions.Action.TheVariants as act;
ghost use Rattle.ro_legal.specs.Core.{may_vote, may_free, views_of};
ghost use Rattle.ro_legal.specs.Legal.{MayTake};
ghost use Rattle.ro_legal.specs.Action.{next_action as next};
ghost use Rattle.ro_legal.specs.Decides.{IsSplit};
ghost use Rattle.ro_legal.specs.Rules.{IsFit, Legal, IsAllowed, IsNext, DecidesVote, DecidesFree, DecidesScrub, replay};
ghost use Rattle.ro_core.specs.Seen.{Appends, IsOfMajority, Stays};
ghost use Rattle.ro_cores.specs.Cores.{left_by, state, sent, Quiet, Sends, HasRoom, KeepsViews, with_sink};
ghost use Rattle.ro_cores.specs.Loans.{IsLent, MayReturn, entry_of, lease_in};

use ro_cores::{Lendable, Remains, RunCore};
use ro_event::View;
use ro_image::Executable;
use ro_io::{Sink, send};
use ro_journal::{Entry, How, Lease};
use ro_legal::Action;
use ro_settings::Settings;
use std::alloc::AllocError;
use std::marker::Model;

/// A core and the sink of its bytes.
pub struct Session<C: RunCore, K: Sink> {
    core: C,
    out: K,
    /// Where the sink failed, how many bytes of the last write it took; the end by it is due, and its entry has not come.
    failed: Option<u32>,
}

impl<C: RunCore, K: Sink> Model for Session<C, K> {
    ghost use Rattle.ro_core.specs.Seen.{CoreOf};
    ghost use Rattle.ro_cores.specs.Cores.{with_sink};
    ghost use Rattle.ro_master.specs.Sessions.{Cuts, IsFresh};

    ghost Value = { CoreOf };

    ghost view = { λ s. with_sink (C.seen s.core) s.failed (K.held s.out) (K.failures s.out) (K.sure s.out) };

    ghost invariant = { λ s. C.holds s.core × Cuts (C.seen s.core) s.failed × IsFresh (C.seen s.core) s.failed (K.failures s.out) };
}

/// What a session leaves behind.
pub struct Finished<K> {
    /// The image with which its core was opened.
    pub image: Executable,
    /// How the run ended, if it did.
    pub how: Option<How>,
    /// Where it ended by a vote of views that had no majority, those views in the order of the replicas.
    pub views: Vec<View>,
    pub journal: Vec<Entry>,
    /// How many bytes the run wrote.
    pub bytes: u64,
    pub out: K,
}

impl<C: RunCore, K: Sink> Session<C, K> {
    /// A core that was just opened, over a sink that has not failed.
    pub fn new(core: C, out: K) -> Session<C, K>
        requires holds { C.holds core }
        requires unfailed { K.failures out ≡ 0 }
        ensures { result ≡ with_sink (C.seen core) None (K.held out) (K.failures out) (K.sure out) }
    {
        Session {
            core,
            out,
            failed: None,
        }
    }

    /// What comes next: the end by a sink that failed; else what comes next of the core.
    pub fn next_action(&self) -> Action
        ensures next { result ≡ next self.now.job (state self.now) }
    {
        match self.failed {
            Some(taken) => Action::End(How::Sink(taken)),
            None => self.core.next_action(),
        }
    }

    /// Makes room for a take, its put, the puts of the leases that are out, and the end.
    ///
    /// # Errors
    /// Where there is no memory.
    pub fn room(&mut self) -> Result<(), AllocError>
        ensures stays { Stays self.old self.new }
        ensures room { OnOk result (HasRoom self.new) }
    {
        self.core.room()
    }

    /// Lends what a lease is for to its driver.
    pub fn lend(&mut self, lease: Lease) -> C::Lent
        requires may { MayTake self.old.job (state self.old) lease }
        requires room { HasRoom self.old }
        ensures entry { Appends self.old self.new (Take lease) }
        ensures quiet { Quiet self.old self.new }
        ensures lent { IsLent self.old.job self.old.journal (C.lent_of result) }
        ensures lease { lease_in (C.lent_of result) ≡ lease }
    {
        self.core.lend(lease)
    }

    /// The entry with which a lease comes back.
    pub fn entry(&self, back: &C::Back) -> Entry
        requires { MayReturn self.now.job self.now.journal (C.back_of back.now) }
        ensures { result ≡ entry_of (left_by self.now) (C.back_of back.now) }
    {
        self.core.entry(back)
    }

    /// Puts back what a lease has become. No end by a failing sink is due.
    pub fn give_back(&mut self, back: C::Back)
        requires calm { self.old.failed ≡ None }
        requires returns { MayReturn self.old.job self.old.journal (C.back_of back) }
        ensures entry { Appends self.old self.new (entry_of (left_by self.old) (C.back_of back)) }
        ensures quiet { Quiet self.old self.new }
    {
        self.core.give_back(back);
    }

    /// Votes on a thread that stands still in every replica: its event is done once, what it writes is sent, and the entry
    /// that was appended is answered. Where the views have no majority, or the limit of steps would be passed, that is an end.
    ///
    /// # Errors
    /// Where there is no memory; nothing has changed then.
    pub fn vote(&mut self, thread: u32) -> Result<Entry, AllocError>
        requires { IsTrue (may_vote (state self.old) thread) }
        ensures entry { IfOk result (λ entry. IsAllowed self.old.job (state self.old) entry × DecidesVote self.old.job (state self.old) thread entry × Appends self.old self.new entry) }
        ensures sends { OnOk result ((bytes : List ℕ) × Sends self.old self.new bytes × ((bytes ≡ []) ⊎ IsOfMajority (views_of self.old.job (state self.old) thread) bytes)) }
        ensures shown { IfOk result (λ entry. IsSplit entry → self.new.views ≡ views_of self.old.job (state self.old) thread) }
        ensures err { OnErr result (Stays self.old self.new) }
    {
        let _before = self.core.entries();
        let voted = self.core.vote(thread)?;
        let _entries = self.core.entries();
        let payload = self.core.payload(voted.1);
        let failed = send(&mut self.out, payload);
        self.failed = failed;
        Ok(voted.0)
    }

    /// Serves the call on which a thread is blocked, and answers the entry that was appended. Where the limit of steps would
    /// be passed, that is an end.
    ///
    /// # Errors
    /// Where there is no memory; nothing has changed then.
    pub fn free(&mut self, thread: u32) -> Result<Entry, AllocError>
        requires { IsTrue (may_free self.old.job (state self.old) thread) }
        ensures entry { IfOk result (λ entry. IsAllowed self.old.job (state self.old) entry × DecidesFree self.old.job (state self.old) thread entry × Appends self.old self.new entry) }
        ensures quiet { OnOk result (Quiet self.old self.new) }
        ensures err { OnErr result (Stays self.old self.new) }
    {
        self.core.free(thread)
    }

    /// Compares the replicas whole, where that comes next: each that is not as more than half of them becomes as these. The
    /// entry that was appended is answered. Where no more than half are the same, that is an end.
    ///
    /// # Errors
    /// Where there is no memory; nothing has changed then.
    pub fn scrub(&mut self) -> Result<Entry, AllocError>
        requires { next self.old.job (state self.old) ≡ act.Scrub }
        ensures entry { IfOk result (λ entry. IsAllowed self.old.job (state self.old) entry × DecidesScrub self.old.job (state self.old) entry × Appends self.old self.new entry) }
        ensures quiet { OnOk result (Quiet self.old self.new) }
        ensures no_views { IfOk result (λ entry. IsSplit entry → self.new.views ≡ []) }
        ensures err { OnErr result (Stays self.old self.new) }
    {
        self.core.scrub()
    }

    /// Ends the run so, where this end comes next.
    pub fn end(&mut self, how: How)
        requires { next self.old.job (state self.old) ≡ act.End how }
        ensures entry { IsAllowed self.old.job (replay self.old.job self.old.journal) (End how) × IsNext self.old.job (replay self.old.job self.old.journal) (End how) × Appends self.old self.new (End how) }
        ensures quiet { Quiet self.old self.new }
    {
        let _entries = self.core.entries();
        self.core.end(how);
        self.failed = None;
    }

    /// How many entries there are. It shows what holds at any time, to whoever keeps a session behind a lock: the journal is
    /// legal and not too long, and where a failing sink's end is due nothing is lent.
    pub fn entries(&self) -> u64
        ensures entries { result ≡ length self.now.journal }
        ensures few { length self.now.journal < 2 ^ 63 }
        ensures legal { Legal self.now.job self.now.journal }
        ensures calm { IsSome self.now.failed → (state self.now).leases ≡ [] }
        ensures in_range { InRange self.now.job.settings }
        ensures fit { IsFit self.now.job }
        ensures mode { self.now.job.settings.mode ≡ C.mode }
    {
        self.core.entries()
    }

    /// What it was asked for.
    pub fn settings(&self) -> Settings
        ensures { result ≡ self.now.job.settings }
    {
        self.core.settings()
    }

    /// How many leases can be out at once.
    pub fn lendable(&self) -> Lendable {
        self.core.lendable()
    }

    // How many bytes have left.
    fn bytes(&self) -> u64
        ensures { result ≡ length (sent self.now) }
    {
        match self.failed {
            Some(taken) => self.core.bytes() - u64::from(self.core.wrote() - taken),
            None => self.core.bytes(),
        }
    }

    /// Hands out the image, how the run ended, if it did, the views of a vote that came to nothing, the journal and the sink.
    pub fn finish(self) -> Finished<K>
        ensures image { result.image ≡ self.job.program.image }
        ensures how { result.how ≡ outcome_of self.journal }
        ensures views { KeepsViews self.job self.journal result.views.items }
        ensures kept { (outcome_of self.journal ≡ Some Differ) ⊎ (outcome_of self.journal ≡ Some NoMajority) → result.views.items ≡ self.views }
        ensures no_views { outcome_of self.journal ≢ Some Differ → outcome_of self.journal ≢ Some NoMajority → result.views.items ≡ [] }
        ensures journal { result.journal.items ≡ self.journal }
        ensures bytes { result.bytes ≡ length (sent self) }
        ensures legal { Legal self.job self.journal }
        ensures open { IsSome self.failed → outcome_of self.journal ≡ None }
        ensures sink { (K.held result.out ≡ self.held) × (K.failures result.out ≡ self.failures) }
    {
        let _entries = self.core.entries();
        let bytes = self.bytes();
        let Session {
            core,
            out,
            failed: _,
        } = self;
        let Remains {
            image,
            how,
            views,
            journal,
        } = core.finish();
        Finished {
            image,
            how,
            views,
            journal,
            bytes,
            out,
        }
    }
}
