//! What is lent and comes back, and what drivers know of it: laws.
ghost use Rattle.std.specs.Prelude.{◌≡◌, ◌++◌, ◌∷◌, ℕ, List, [], None, Some, true, length, slice_get};
ghost use Rattle.ro_journal.specs.declared.Entry.{Entry};
ghost use Rattle.ro_journal.specs.declared.Entry.TheVariants.{Take};
ghost use Rattle.ro_journal.specs.Plan.{outcome_of};
ghost use Rattle.ro_orders.specs.Copies.{Rows};
ghost use Rattle.ro_legal.specs.Core.{Job, Core, is_idle};
ghost use Rattle.ro_legal.specs.Jobs.{CanRun};
ghost use Rattle.ro_legal.specs.Rules.{IsFit, Legal, IsAllowed, IsNext, replay};
ghost use Rattle.ro_cores.specs.History.{Turned, Owned, NoneBy, AreWithin, BringsNone, turned, journal_of};
ghost use Rattle.ro_cores.specs.Loans.{LentOf, BackOf, ShareOf, SharedOf, lease_in, lease_of, entry_of, Returns, IsLent, CanGo, Gives, MayReturn, SharesIn, IsShare, IsUnused, AllAgreeWith, Knows, IsJoined};

/// What is lent can run; and what becomes of it may be put back while the lease is out, whatever others have done since.
pub fn loans_return()
    ensures goes { (job : Job) (before : List Entry) (lent : LentOf) → IsLent job before lent → CanGo lent }
    ensures lease { (lent : LentOf) (old : ShareOf) (back : BackOf) (new : ShareOf) → Gives lent old back new → lease_of back ≡ lease_in lent }
    ensures share { (shared : SharedOf) (number : ℕ) (lent : LentOf) (old : ShareOf) (back : BackOf) (new : ShareOf) → IsShare shared number old → Gives lent old back new → IsShare shared number new }
    ensures returns { (job : Job) (before : List Entry) (rest : List Turned) (lent : LentOf) (old : ShareOf) (back : BackOf) (new : ShareOf) → CanRun job → IsFit job → Legal job ((before ++ Take (lease_in lent) ∷ []) ++ journal_of rest) → Owned rest → NoneBy (lease_in lent).driver rest → IsLent job before lent → Gives lent old back new → MayReturn job ((before ++ Take (lease_in lent) ∷ []) ++ journal_of rest) back }
    ensures allowed { (job : Job) (journal : List Entry) (back : BackOf) → MayReturn job journal back → IsAllowed job (replay job journal) (entry_of (replay job journal) back) }
    ensures entry { (core : Core) (back : BackOf) → Returns (lease_of back) (entry_of core back) }
    ensures idle { (job : Job) (journal : List Entry) (core : Core) (back : BackOf) → Legal job (journal ++ entry_of core back ∷ []) → is_idle (replay job (journal ++ entry_of core back ∷ [])) (lease_of back).driver ≡ true }
    ensures next { (job : Job) (core : Core) (back : BackOf) → IsNext job core (entry_of core back) }
    ensures open { (core : Core) (back : BackOf) → outcome_of (entry_of core back ∷ []) ≡ None }
{}

/// What a driver's own entries got in a cooperative run its share knows: at first, while others' entries come and its own that bring no
/// lease back, and by the entry that brings its lease back. So all that was got stands in the rows with which all shares agree.
pub fn shares_know()
    ensures nothing { (job : Job) (number : ℕ) (share : ShareOf) → IsUnused share → Knows job number [] share }
    ensures others { (job : Job) (number : ℕ) (history rest : List Turned) (share : ShareOf) → CanRun job → IsFit job → Legal job (journal_of (history ++ rest)) → NoneBy number rest → Knows job number history share → Knows job number (history ++ rest) share }
    ensures own { (job : Job) (number : ℕ) (history : List Turned) (entry : Entry) (share : ShareOf) → CanRun job → IsFit job → Legal job (journal_of (history ++ turned number entry ∷ [])) → BringsNone entry → Knows job number history share → Knows job number (history ++ turned number entry ∷ []) share }
    ensures returns { (job : Job) (number : ℕ) (seen rest : List Turned) (before : List Entry) (core : Core) (lent : LentOf) (old : ShareOf) (back : BackOf) (new : ShareOf) → CanRun job → IsFit job → journal_of seen ≡ before ++ Take (lease_in lent) ∷ [] → (lease_in lent).driver ≡ number → Owned rest → NoneBy number rest → Legal job (journal_of ((seen ++ rest) ++ turned number (entry_of core back) ∷ [])) → IsLent job before lent → Gives lent old back new → Knows job number seen old → Knows job number ((seen ++ rest) ++ turned number (entry_of core back) ∷ []) new }
    ensures join { (job : Job) (history : List Turned) (rows : Rows) (shares : List ShareOf) (shared : SharedOf) → CanRun job → IsFit job → Legal job (journal_of history) → AreWithin (length shares) history → SharesIn job.settings.mode shared → AllAgreeWith rows shares → ((number : ℕ) (share : ShareOf) → slice_get shares number ≡ Some share → IsShare shared number share × Knows job number history share) → IsJoined job (journal_of history) }
{}
