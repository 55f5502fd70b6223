//! A follower of a journal: a core that makes the same entries, and what it lent.
ghost use Rattle.std.specs.Prelude.{◌≡◌, ◌≢◌, ◌⊎◌, ◌<◌, ◌↔◌, ◌++◌, ◌∷◌, ℕ, [], IfErr, IfOk, IfSome, IsTrue, None, Some, length, true};
ghost use Rattle.ro_journal.specs.declared.Entry.TheVariants.{Take, Scrub, End};
ghost use Rattle.ro_settings.specs.Ranges.{InRange};
ghost use Rattle.ro_replica.specs.Seen.{AreFaults};
ghost use Rattle.ro_legal.specs.declared.actions.Action.TheVariants as act;
ghost use Rattle.ro_legal.specs.Action.{next_action as next};
ghost use Rattle.ro_legal.specs.Core.{may_vote, may_free};
ghost use Rattle.ro_legal.specs.Jobs.{job_of};
ghost use Rattle.ro_legal.specs.Legal.{EndsAlone, EndsFree, EndsSink};
ghost use Rattle.ro_legal.specs.Rules.{IsFit, DecidesVote, DecidesFree, DecidesScrub, EndsVote, EndsScrub, IsNext};
ghost use Rattle.ro_cores.specs.Cores.{left_by};
ghost use Rattle.ro_cores.specs.Loans.{Returns};
ghost use Rattle.ro_audit.specs.Audits.{NextUpTo, scrubs};
ghost use Rattle.ro_audit.specs.Following.{Follows, Followed, IsInPlace, IsUnless, NotByThread, NotInPlace, Same, Walked};

use crate::audit_cores::AuditCore;
use crate::copies::{Compared, Difference};
use crate::loans::{Loan, lend, take_back, vacant};
use ro_cores::Remains;
use ro_faults::Fault;
use ro_image::Executable;
use ro_journal::{Entry, How, Lease, Lost};
use ro_legal::Action;
use ro_settings::Settings;
use std::alloc::{AllocError, Global};

/// Follows a journal.
pub(crate) struct Follower<C: AuditCore> {
    pub core: C,
    /// Of each driver what is lent to it.
    pub lent: Vec<Option<Loan<C>>>,
    /// What the entries' leases got.
    pub got: C::Got,
    /// What the entries wrote.
    pub output: Vec<u8>,
    /// What differed in each copy that the votes and scrubs made.
    pub copies: Vec<Difference>,
    pub alloc: Global,
}

/// Why an entry is not allowed.
#[derive(Clone, Copy, Debug, PartialEq, Eq)]
pub enum Why {
    /// The driver holds a lease, or the thread can't be lent in that replica.
    NotLendable,
    /// No such lease is out.
    NotOut,
    /// The run of the lease comes back after so many instructions and faults.
    Ran { count: u32, hit: u32 },
    /// The lease doesn't come back so: its thread waits for a page or stands at nothing for which a vote is held, or faults are told
    /// where there are none.
    NoPut,
    /// The lease doesn't come back so: its thread waits for no page, and at no lock there, or replicas answer no calls by themselves.
    NoPart,
    /// The lease gets a mutex that another thread got.
    OtherGot,
    /// The thread can't be voted on.
    NoVote,
    /// The thread has no call that may be served.
    NoFree,
    /// The replicas can't be compared whole: one is lent, or a thread of one can be.
    NoScrub,
    /// The vote, the call that is served, or the scrub comes to this entry.
    Comes(Entry),
    /// The run does not end so here.
    NoEnd,
    /// The run has ended.
    Behind,
}

/// What became of a journal that was followed.
#[derive(Clone, Copy, Debug, PartialEq, Eq)]
pub(crate) enum Walk {
    /// All of it was followed, and which place has the first entry that is not what the run does next, if one has.
    Whole { odd: Option<usize> },
    /// The entry at this place is not allowed, and why it is not.
    Stopped { place: usize, why: Why },
}

/// In the place of what a run ends.
#[derive(Clone, Copy, Debug, PartialEq, Eq)]
pub(crate) enum InPlace {
    /// Of the vote on this thread.
    OfVote(u32),
    /// Of the call that is served for this thread.
    OfFree(u32),
    /// Of the scrub.
    OfScrub,
}

impl<C: AuditCore> Follower<C> {
    /// A follower of the journals of a run.
    ///
    /// # Errors
    /// Where there is no memory; the image comes back.
    pub fn begin(
        alloc: Global,
        image: Executable,
        input: &[u8],
        faults: &[Fault],
        settings: Settings,
    ) -> Result<Follower<C>, Executable>
        requires settings { InRange settings }
        requires faults { AreFaults faults.now }
        requires mode { settings.mode ≡ C.mode }
        requires fit { IsFit (job_of image input.now faults.now settings) }
        ensures holds { IfOk result (λ f. C.holds f.core) }
        ensures follows { IfOk result (λ f. Follows (C.seen f.core) f.lent.items (C.got_of f.got) f.output.items) }
        ensures job { IfOk result (λ f. (C.seen f.core).job ≡ job_of image input.now faults.now settings) }
        ensures journal { IfOk result (λ f. (C.seen f.core).journal ≡ []) }
        ensures back { IfErr result (λ back. back ≡ image) }
    {
        let Ok(lent) = vacant(alloc, settings.drivers) else {
            return Err(image);
        };
        let core = C::begin(alloc, image, input, faults, settings)?;
        Ok(Follower {
            core,
            lent,
            got: C::nothing_got(alloc),
            output: Vec::new(alloc),
            copies: Vec::new(alloc),
            alloc,
        })
    }

    /// Follows the entries up to the first that is not allowed, and notes the first that is not what the run does next.
    ///
    /// # Errors
    /// Where there is no memory.
    pub fn walk(&mut self, journal: &[Entry]) -> Result<Walk, AllocError>
        requires holds { C.holds self.old.core }
        requires follows { Follows (C.seen self.old.core) self.old.lent.items (C.got_of self.old.got) self.old.output.items }
        requires journal { (C.seen self.old.core).journal ≡ [] }
        ensures holds { C.holds self.new.core }
        ensures job { (C.seen self.new.core).job ≡ (C.seen self.old.core).job }
        ensures walked { IfOk result (λ walk. Walked (C.seen self.old.core).job journal.now walk (C.seen self.new.core) self.new.output.items) }
    {
        let mut odd = None;
        for (place, entry) in journal.iter().enumerate() {
            odd = self.first_odd(odd, place, entry);
            if let Some(why) = self.follow(entry)? {
                return Ok(Walk::Stopped { place, why });
            }
        }
        Ok(Walk::Whole { odd })
    }

    /// Lets all go but the image.
    pub fn discard(self) -> Executable
        requires { C.holds self.core }
        ensures { result ≡ (C.seen self.core).job.program.image }
    {
        let Follower {
            core,
            lent: _,
            got: _,
            output: _,
            copies: _,
            alloc: _,
        } = self;
        let Remains {
            image,
            how: _,
            views: _,
            journal: _,
        } = core.finish();
        image
    }

    // Follows one entry; answers why it is not allowed, if it is not.
    fn follow(&mut self, entry: &Entry) -> Result<Option<Why>, AllocError>
        requires holds { C.holds self.old.core }
        requires follows { Follows (C.seen self.old.core) self.old.lent.items (C.got_of self.old.got) self.old.output.items }
        ensures holds { C.holds self.new.core }
        ensures job { (C.seen self.new.core).job ≡ (C.seen self.old.core).job }
        ensures followed { IfOk result (λ why. Followed (C.seen self.old.core) entry.now why (C.seen self.new.core) self.new.lent.items (C.got_of self.new.got) self.new.output.items) }
    {
        if self.core.ended().is_some() {
            return Ok(Some(Why::Behind));
        }
        match *entry {
            Entry::Take(lease) => self.take(lease),
            Entry::Put { lease, .. } | Entry::Part { lease, .. } => self.come_back(lease, entry),
            Entry::Vote {
                thread,
                won,
                lost,
                ..
            } => {
                if self.core.may_vote(thread) {
                    self.vote_noted(thread, won, lost, entry)
                } else {
                    Ok(Some(Why::NoVote))
                }
            }
            Entry::Free { thread } => {
                if self.core.may_free(thread) {
                    self.free(thread, entry)
                } else {
                    Ok(Some(Why::NoFree))
                }
            }
            Entry::Scrub { won, lost } => self.scrub_noted(won, lost),
            Entry::End { how } => self.end(how),
        }
    }

    // The place of the first entry that is not what the run does next, up to this entry; what it was before is known. Where there
    // is one, nothing is asked of this entry.
    fn first_odd(&mut self, before: Option<usize>, place: usize, entry: &Entry) -> Option<usize>
        requires holds { C.holds self.old.core }
        requires follows { Follows (C.seen self.old.core) self.old.lent.items (C.got_of self.old.got) self.old.output.items }
        requires place { length (C.seen self.old.core).journal ≡ place }
        requires next { NextUpTo (C.seen self.old.core).job (C.seen self.old.core).journal before }
        ensures holds { C.holds self.new.core }
        ensures follows { Follows (C.seen self.new.core) self.new.lent.items (C.got_of self.new.got) self.new.output.items }
        ensures same { Same (C.seen self.old.core) (C.seen self.new.core) }
        ensures next { NextUpTo (C.seen self.old.core).job ((C.seen self.old.core).journal ++ entry.now ∷ []) result }
    {
        if before.is_some() {
            return before;
        }
        if self.is_next(entry) {
            return None;
        }
        Some(place)
    }

    // Whether an entry is what the run does next. A lease comes back at any time.
    fn is_next(&mut self, entry: &Entry) -> bool
        requires holds { C.holds self.old.core }
        requires follows { Follows (C.seen self.old.core) self.old.lent.items (C.got_of self.old.got) self.old.output.items }
        ensures holds { C.holds self.new.core }
        ensures follows { Follows (C.seen self.new.core) self.new.lent.items (C.got_of self.new.got) self.new.output.items }
        ensures same { Same (C.seen self.old.core) (C.seen self.new.core) }
        ensures next { IsTrue result ↔ IsNext (C.seen self.old.core).job (left_by (C.seen self.old.core)) entry.now }
    {
        match *entry {
            Entry::Take(lease) => self.comes(Action::Lend {
                replica: lease.replica,
                thread: lease.thread,
            }),
            Entry::Put { .. } | Entry::Part { .. } => true,
            Entry::Vote { thread, .. } => self.comes(Action::Vote(thread)),
            Entry::Free { thread } => self.comes(Action::Free(thread)),
            Entry::Scrub { .. } => self.comes(Action::Scrub),
            Entry::End { how } => self.ends_next(how),
        }
    }

    // Whether this comes next.
    fn comes(&self, action: Action) -> bool
        requires { C.holds self.now.core }
        ensures { IsTrue result ↔ (next (C.seen self.now.core).job (left_by (C.seen self.now.core)) ≡ action) }
    {
        is_same_action(self.core.next_action(), action)
    }

    // Whether the run ends so next: that comes next, or in the place of the vote, the free or the scrub that does, or it is a failing
    // sink's end.
    fn ends_next(&mut self, how: How) -> bool
        requires holds { C.holds self.old.core }
        requires follows { Follows (C.seen self.old.core) self.old.lent.items (C.got_of self.old.got) self.old.output.items }
        ensures holds { C.holds self.new.core }
        ensures follows { Follows (C.seen self.new.core) self.new.lent.items (C.got_of self.new.got) self.new.output.items }
        ensures same { Same (C.seen self.old.core) (C.seen self.new.core) }
        ensures next { IsTrue result ↔ IsNext (C.seen self.old.core).job (left_by (C.seen self.old.core)) (End how) }
    {
        if self.ends_sink(how) {
            return true;
        }
        match self.core.next_action() {
            Action::Vote(thread) => self.ends_vote(thread, how),
            Action::Free(thread) => self.ends_free(thread, how),
            Action::Scrub => self.ends_scrub(how),
            Action::End(due) => is_same_how(due, how),
            Action::Lend { .. } | Action::Wait | Action::Over => false,
        }
    }

    // Lends a thread of a replica to a driver, where that is allowed.
    fn take(&mut self, lease: Lease) -> Result<Option<Why>, AllocError>
        requires holds { C.holds self.old.core }
        requires follows { Follows (C.seen self.old.core) self.old.lent.items (C.got_of self.old.got) self.old.output.items }
        requires going { (left_by (C.seen self.old.core)).ended ≡ None }
        ensures holds { C.holds self.new.core }
        ensures job { (C.seen self.new.core).job ≡ (C.seen self.old.core).job }
        ensures followed { IfOk result (λ why. Followed (C.seen self.old.core) (Take lease) why (C.seen self.new.core) self.new.lent.items (C.got_of self.new.got) self.new.output.items) }
    {
        if !self.core.may_take(lease) {
            return Ok(Some(Why::NotLendable));
        }
        self.core.room()?;
        let loan = Loan::new(self.core.lend(lease));
        lend(self.lent.as_mut_slice(), lease.driver, loan);
        Ok(None)
    }

    // Runs what is lent to a driver and puts it back, where it comes back as the entry tells.
    fn come_back(&mut self, lease: Lease, entry: &Entry) -> Result<Option<Why>, AllocError>
        requires holds { C.holds self.old.core }
        requires follows { Follows (C.seen self.old.core) self.old.lent.items (C.got_of self.old.got) self.old.output.items }
        requires going { (left_by (C.seen self.old.core)).ended ≡ None }
        requires returns { Returns lease entry.now }
        ensures holds { C.holds self.new.core }
        ensures job { (C.seen self.new.core).job ≡ (C.seen self.old.core).job }
        ensures followed { IfOk result (λ why. Followed (C.seen self.old.core) entry.now why (C.seen self.new.core) self.new.lent.items (C.got_of self.new.got) self.new.output.items) }
    {
        let Some(loan) = take_back(self.lent.as_mut_slice(), lease.driver) else {
            return Ok(Some(Why::NotOut));
        };
        if !loan.is_of(lease) {
            return Ok(Some(Why::NotOut));
        }
        let lent = loan.into_inner();
        match self.core.come_back(&mut self.got, lent, entry)? {
            Ok(back) => {
                self.core.give_back(back);
                Ok(None)
            }
            Err(why) => Ok(Some(why)),
        }
    }

    // Holds a vote that may be held, and answers what it comes to where that is not this entry, which would decide it.
    fn vote(&mut self, thread: u32, entry: &Entry) -> Result<Option<Why>, AllocError>
        requires holds { C.holds self.old.core }
        requires follows { Follows (C.seen self.old.core) self.old.lent.items (C.got_of self.old.got) self.old.output.items }
        requires may { IsTrue (may_vote (left_by (C.seen self.old.core)) thread) }
        requires decides { DecidesVote (C.seen self.old.core).job (left_by (C.seen self.old.core)) thread entry.now }
        ensures holds { C.holds self.new.core }
        ensures job { (C.seen self.new.core).job ≡ (C.seen self.old.core).job }
        ensures followed { IfOk result (λ why. Followed (C.seen self.old.core) entry.now why (C.seen self.new.core) self.new.lent.items (C.got_of self.new.got) self.new.output.items) }
    {
        let (came, writer) = self.core.vote(thread)?;
        let payload = self.core.payload(writer);
        self.output.extend_from_slice(payload)?;
        Ok(unless_same(came, entry))
    }

    // The same of a vote whose entry names who won and who lost; what differs in the copies that it makes is noted.
    fn vote_noted(
        &mut self,
        thread: u32,
        won: u32,
        lost: Lost,
        entry: &Entry,
    ) -> Result<Option<Why>, AllocError>
        requires holds { C.holds self.old.core }
        requires follows { Follows (C.seen self.old.core) self.old.lent.items (C.got_of self.old.got) self.old.output.items }
        requires may { IsTrue (may_vote (left_by (C.seen self.old.core)) thread) }
        requires decides { DecidesVote (C.seen self.old.core).job (left_by (C.seen self.old.core)) thread entry.now }
        ensures holds { C.holds self.new.core }
        ensures job { (C.seen self.new.core).job ≡ (C.seen self.old.core).job }
        ensures followed { IfOk result (λ why. Followed (C.seen self.old.core) entry.now why (C.seen self.new.core) self.new.lent.items (C.got_of self.new.got) self.new.output.items) }
    {
        let before = self.copies.len();
        self.note_all(Compared::Views(thread), won, lost)?;
        let why = self.vote(thread, entry)?;
        if why.is_some() {
            self.copies.truncate(before);
        }
        Ok(why)
    }

    // Scrubs where that is allowed, and answers what it comes to where that is not this entry; what differs in the copies that
    // it makes is noted.
    fn scrub_noted(&mut self, won: u32, lost: Lost) -> Result<Option<Why>, AllocError>
        requires holds { C.holds self.old.core }
        requires follows { Follows (C.seen self.old.core) self.old.lent.items (C.got_of self.old.got) self.old.output.items }
        requires going { (left_by (C.seen self.old.core)).ended ≡ None }
        ensures holds { C.holds self.new.core }
        ensures job { (C.seen self.new.core).job ≡ (C.seen self.old.core).job }
        ensures followed { IfOk result (λ why. Followed (C.seen self.old.core) (Scrub won lost) why (C.seen self.new.core) self.new.lent.items (C.got_of self.new.got) self.new.output.items) }
    {
        if !self.core.may_scrub() {
            return Ok(Some(Why::NoScrub));
        }
        let before = self.copies.len();
        self.note_all(Compared::Replicas, won, lost)?;
        let why = self.scrub(&Entry::Scrub { won, lost })?;
        if why.is_some() {
            self.copies.truncate(before);
        }
        Ok(why)
    }

    // Makes a scrub that may be made, and answers what it comes to where that is not this entry, which would decide it.
    fn scrub(&mut self, entry: &Entry) -> Result<Option<Why>, AllocError>
        requires holds { C.holds self.old.core }
        requires follows { Follows (C.seen self.old.core) self.old.lent.items (C.got_of self.old.got) self.old.output.items }
        requires may { IsTrue (scrubs (C.seen self.old.core).job (left_by (C.seen self.old.core))) }
        requires decides { DecidesScrub (C.seen self.old.core).job (left_by (C.seen self.old.core)) entry.now }
        ensures holds { C.holds self.new.core }
        ensures job { (C.seen self.new.core).job ≡ (C.seen self.old.core).job }
        ensures followed { IfOk result (λ why. Followed (C.seen self.old.core) entry.now why (C.seen self.new.core) self.new.lent.items (C.got_of self.new.got) self.new.output.items) }
    {
        let came = self.core.compare()?;
        Ok(unless_same(came, entry))
    }

    // Notes what differs in the copies that a vote or a scrub is about to make.
    fn note_all(&mut self, compared: Compared, won: u32, lost: Lost) -> Result<(), AllocError>
        ensures core { self.new.core ≡ self.old.core }
        ensures lent { self.new.lent ≡ self.old.lent }
        ensures got { self.new.got ≡ self.old.got }
        ensures output { self.new.output ≡ self.old.output }
    {
        match lost {
            Lost::Nobody => Ok(()),
            Lost::One(number) => self.note(compared, won, number),
            Lost::Two(lower, higher) => {
                self.note(compared, won, lower)?;
                self.note(compared, won, higher)
            }
        }
    }

    // The same of one of them.
    fn note(&mut self, compared: Compared, won: u32, replica: u32) -> Result<(), AllocError>
        ensures core { self.new.core ≡ self.old.core }
        ensures lent { self.new.lent ≡ self.old.lent }
        ensures got { self.new.got ≡ self.old.got }
        ensures output { self.new.output ≡ self.old.output }
    {
        let difference = compared.between(self.alloc, &self.core, won, replica)?;
        self.copies.push(difference)?;
        Ok(())
    }

    // Serves a call that may be served, and answers what that comes to where it is not this entry, which would decide it.
    fn free(&mut self, thread: u32, entry: &Entry) -> Result<Option<Why>, AllocError>
        requires holds { C.holds self.old.core }
        requires follows { Follows (C.seen self.old.core) self.old.lent.items (C.got_of self.old.got) self.old.output.items }
        requires may { IsTrue (may_free (C.seen self.old.core).job (left_by (C.seen self.old.core)) thread) }
        requires decides { DecidesFree (C.seen self.old.core).job (left_by (C.seen self.old.core)) thread entry.now }
        ensures holds { C.holds self.new.core }
        ensures job { (C.seen self.new.core).job ≡ (C.seen self.old.core).job }
        ensures followed { IfOk result (λ why. Followed (C.seen self.old.core) entry.now why (C.seen self.new.core) self.new.lent.items (C.got_of self.new.got) self.new.output.items) }
    {
        let came = self.core.free(thread)?;
        Ok(unless_same(came, entry))
    }

    // Ends the run so, where that is allowed: the end is due, or nothing can be done, or it comes in the place of a vote, a free
    // or a scrub.
    fn end(&mut self, how: How) -> Result<Option<Why>, AllocError>
        requires holds { C.holds self.old.core }
        requires follows { Follows (C.seen self.old.core) self.old.lent.items (C.got_of self.old.got) self.old.output.items }
        requires going { (left_by (C.seen self.old.core)).ended ≡ None }
        ensures holds { C.holds self.new.core }
        ensures job { (C.seen self.new.core).job ≡ (C.seen self.old.core).job }
        ensures followed { IfOk result (λ why. Followed (C.seen self.old.core) (End how) why (C.seen self.new.core) self.new.lent.items (C.got_of self.new.got) self.new.output.items) }
    {
        if self.ends_now(how) {
            self.core.end(how);
            self.output.truncate(self.core.bytes() as usize);
            return Ok(None);
        }
        let entry = Entry::End { how };
        match self.place_of(how) {
            Some(InPlace::OfVote(thread)) => self.vote(thread, &entry),
            Some(InPlace::OfFree(thread)) => self.free(thread, &entry),
            Some(InPlace::OfScrub) => self.scrub(&entry),
            None => Ok(Some(Why::NoEnd)),
        }
    }

    // Whether such an end may be appended by itself: it comes next, or it comes alone.
    fn ends_now(&self, how: How) -> bool
        requires { C.holds self.now.core }
        ensures { IsTrue result ↔ ((next (C.seen self.now.core).job (left_by (C.seen self.now.core)) ≡ act.End how) ⊎ EndsAlone (C.seen self.now.core).job (left_by (C.seen self.now.core)) how) }
    {
        self.comes(Action::End(how)) || self.ends_alone(how)
    }

    // Whether nothing can be done and this is a deadlock, or bytes of the last write are left and it is a failing sink's end.
    fn ends_alone(&self, how: How) -> bool
        requires { C.holds self.now.core }
        ensures { IsTrue result ↔ EndsAlone (C.seen self.now.core).job (left_by (C.seen self.now.core)) how }
    {
        match how {
            How::Deadlock => self.core.is_stuck(),
            _ => self.ends_sink(how),
        }
    }

    // Whether bytes of the last write are left and this is a failing sink's end.
    fn ends_sink(&self, how: How) -> bool
        requires { C.holds self.now.core }
        ensures { IsTrue result ↔ EndsSink (left_by (C.seen self.now.core)) how }
    {
        match how {
            How::Sink(taken) => self.core.is_going() && taken < self.core.wrote(),
            _ => false,
        }
    }

    // In the place of what the run would end so.
    fn place_of(&mut self, how: How) -> Option<InPlace>
        requires holds { C.holds self.old.core }
        requires follows { Follows (C.seen self.old.core) self.old.lent.items (C.got_of self.old.got) self.old.output.items }
        ensures holds { C.holds self.new.core }
        ensures follows { Follows (C.seen self.new.core) self.new.lent.items (C.got_of self.new.got) self.new.output.items }
        ensures same { Same (C.seen self.old.core) (C.seen self.new.core) }
        ensures some { IfSome result (λ place. IsInPlace (C.seen self.old.core).job (left_by (C.seen self.old.core)) how place) }
        ensures none { result ≡ None → NotInPlace (C.seen self.old.core).job (left_by (C.seen self.old.core)) how }
    {
        for thread in 0..ro_limits::MOST_THREADS {
            let place = self.place_at(thread, how);
            if place.is_some() {
                return place;
            }
        }
        if self.ends_scrub(how) {
            return Some(InPlace::OfScrub);
        }
        None
    }

    // The same of one thread.
    fn place_at(&mut self, thread: u32, how: How) -> Option<InPlace>
        requires holds { C.holds self.old.core }
        requires follows { Follows (C.seen self.old.core) self.old.lent.items (C.got_of self.old.got) self.old.output.items }
        ensures holds { C.holds self.new.core }
        ensures follows { Follows (C.seen self.new.core) self.new.lent.items (C.got_of self.new.got) self.new.output.items }
        ensures same { Same (C.seen self.old.core) (C.seen self.new.core) }
        ensures some { IfSome result (λ place. IsInPlace (C.seen self.old.core).job (left_by (C.seen self.old.core)) how place) }
        ensures none { result ≡ None → NotByThread (C.seen self.old.core).job (left_by (C.seen self.old.core)) how thread }
    {
        if self.ends_vote(thread, how) {
            return Some(InPlace::OfVote(thread));
        }
        if self.ends_free(thread, how) {
            return Some(InPlace::OfFree(thread));
        }
        None
    }

    // Whether the run would end so in the place of a vote on a thread.
    fn ends_vote(&mut self, thread: u32, how: How) -> bool
        requires holds { C.holds self.old.core }
        requires follows { Follows (C.seen self.old.core) self.old.lent.items (C.got_of self.old.got) self.old.output.items }
        ensures holds { C.holds self.new.core }
        ensures follows { Follows (C.seen self.new.core) self.new.lent.items (C.got_of self.new.got) self.new.output.items }
        ensures same { Same (C.seen self.old.core) (C.seen self.new.core) }
        ensures ends { IsTrue result ↔ ((may_vote (left_by (C.seen self.old.core)) thread ≡ true) × EndsVote (C.seen self.old.core).job (left_by (C.seen self.old.core)) thread how) }
    {
        if !self.core.may_vote(thread) {
            return false;
        }
        let end = self.core.vote_end(thread);
        is_how(end, how)
    }

    // Whether the run would end so in the place of a call that is served for a thread.
    fn ends_free(&self, thread: u32, how: How) -> bool
        requires holds { C.holds self.now.core }
        requires follows { Follows (C.seen self.now.core) self.now.lent.items (C.got_of self.now.got) self.now.output.items }
        ensures { IsTrue result ↔ ((may_free (C.seen self.now.core).job (left_by (C.seen self.now.core)) thread ≡ true) × EndsFree (C.seen self.now.core).job (left_by (C.seen self.now.core)) how) }
    {
        if !self.core.may_free(thread) {
            return false;
        }
        is_how(self.core.free_end(), how)
    }

    // Whether the run would end so in the place of a scrub.
    fn ends_scrub(&self, how: How) -> bool
        requires holds { C.holds self.now.core }
        requires follows { Follows (C.seen self.now.core) self.now.lent.items (C.got_of self.now.got) self.now.output.items }
        ensures { IsTrue result ↔ ((scrubs (C.seen self.now.core).job (left_by (C.seen self.now.core)) ≡ true) × EndsScrub (C.seen self.now.core).job (left_by (C.seen self.now.core)) how) }
    {
        self.core.may_scrub() && is_how(self.core.scrub_end(), how)
    }
}

// What came, where it is not this entry.
fn unless_same(came: Entry, entry: &Entry) -> Option<Why>
    ensures { IsUnless came entry.now result }
{
    if is_same(&came, entry) {
        None
    } else {
        Some(Why::Comes(came))
    }
}

pub(crate) fn is_same(came: &Entry, entry: &Entry) -> bool
    ensures { IsTrue result ↔ (came.now ≡ entry.now) }
{
    came == entry
}

fn is_same_action(one: Action, other: Action) -> bool
    ensures { IsTrue result ↔ (one ≡ other) }
{
    one == other
}

fn is_same_how(one: How, other: How) -> bool
    ensures { IsTrue result ↔ (one ≡ other) }
{
    one == other
}

fn is_how(end: Option<How>, how: How) -> bool
    ensures { IsTrue result ↔ (end ≡ Some how) }
{
    end == Some(how)
}
