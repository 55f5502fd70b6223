//! What a driver may put back, and what it got: laws.
ghost use Rattle.std.specs.Prelude.{◌≡◌, ◌++◌, List};
ghost use Rattle.ro_lockpage.specs.Pages.{PassOf};
ghost use Rattle.ro_peer.specs.Gets.{Get};
ghost use Rattle.ro_peer.specs.Seen.{peer_of};
ghost use Rattle.ro_legal.specs.Kept.{HasPeer, NoFurtherAhead};
ghost use Rattle.ro_legal.specs.Cooperative.{lease_gets};
ghost use Rattle.ro_locking.specs.Got.{HasGot};
ghost use Rattle.ro_coop_core.specs.Seen.{RunOf, IsLent, MayReturn, state};
ghost use Rattle.ro_coop_lease.specs.declared.Lent.{Lent};
ghost use Rattle.ro_coop_lease.specs.declared.Back.{Back};
ghost use Rattle.ro_coop_lease.specs.Loans.{CanGo, Gives};

/// A peer that is lent by a core can run; and what becomes of its run may be put back while the lease is out, with the peer and
/// the kernel as they were at the take.
pub fn what_is_lent_may_return()
    ensures goes { (run : RunOf) (lent : Lent) → lent.quantum ≡ run.job.settings.quantum → IsLent run lent.lease.replica lent.lease.thread lent.partner → CanGo lent }
    ensures returns { (run : RunOf) (lent : Lent) (back : Back) (old new : PassOf) → lent.quantum ≡ run.job.settings.quantum → IsLent run lent.lease.replica lent.lease.thread lent.partner → Gives lent old back new → (now : RunOf) → now.job ≡ run.job → HasPeer (state now) lent.lease.driver lent.lease (state run).kernel (peer_of lent.partner.peer) → NoFurtherAhead (state run).sides (state now).sides → (returns : MayReturn now lent.lease.driver back.partner back.took.count back.took.came) × (returns.lease ≡ lent.lease) }
{}

/// What a run got, as its entry says, adds up to what its pass has got.
pub fn what_was_got_is_known()
    ensures { (run : RunOf) (lent : Lent) (back : Back) (old new : PassOf) (gets : List Get) → IsLent run lent.lease.replica lent.lease.thread lent.partner → Gives lent old back new → HasGot lent.partner.peer.mutexes old gets → HasGot lent.partner.peer.mutexes new (gets ++ lease_gets run.job (state run) lent.lease back.took.count) }
{}
