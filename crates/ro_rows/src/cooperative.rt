//! Rows at the edges of what is allowed in a cooperative run.
ghost use Rattle.ro_journal.specs.declared.Did.TheVariants.{Served};
ghost use Rattle.ro_journal.specs.declared.How.TheVariants.{Differ, Limit};
ghost use Rattle.ro_journal.specs.declared.Entry.TheVariants.{Put, Vote, End};
ghost use Rattle.ro_journal.specs.declared.losers.Lost.TheVariants.{Nobody, One};
ghost use Rattle.ro_legal.specs.Cooperative.{IsAllowed};
ghost use Rattle.ro_coop.specs.Guests.{put_by, vote_on};
ghost use Rattle.ro_coop.specs.Contests.{lease_by, writers_job};
ghost use Rattle.ro_rows.specs.Cooperative.{limited_job, first_lent, both_there, lent_at};

/// A row: what a cooperative journal may not say. A lease comes back at a stop or after a whole quantum, and not before, with no fault, and
/// with no mutex that it got 1,024 times more than another replica did. A vote is won by replica 0 and lost by nobody, and where all views
/// are one no difference ends the journal. The limit ends it where the vote's one step would pass it, with the steps so far and with
/// that one, and not with more, nor where the vote fits.
pub fn refused_row()
    ensures put { IsAllowed writers_job first_lent (put_by 0 0 3) }
    ensures short { IsAllowed writers_job first_lent (put_by 0 0 2) → ⊥ }
    ensures hit { IsAllowed writers_job first_lent (Put (lease_by 0 0) 3 1) → ⊥ }
    ensures near { IsAllowed writers_job (lent_at 1023) (put_by 0 1 6) }
    ensures ahead { IsAllowed writers_job (lent_at 1024) (put_by 0 1 6) → ⊥ }
    ensures vote { IsAllowed (limited_job 4) (both_there 4) (vote_on 0 3 Served) }
    ensures winner { IsAllowed (limited_job 4) (both_there 4) (Vote 0 3 1 Nobody Served) → ⊥ }
    ensures loser { IsAllowed (limited_job 4) (both_there 4) (Vote 0 3 0 (One 1) Served) → ⊥ }
    ensures differ { IsAllowed (limited_job 4) (both_there 4) (End Differ) → ⊥ }
    ensures fits { IsAllowed (limited_job 4) (both_there 4) (End (Limit 3 1)) → ⊥ }
    ensures passes { IsAllowed (limited_job 3) (both_there 3) (vote_on 0 3 Served) → ⊥ }
    ensures limit { IsAllowed (limited_job 3) (both_there 3) (End (Limit 3 1)) }
    ensures more { IsAllowed (limited_job 3) (both_there 3) (End (Limit 3 2)) → ⊥ }
    ensures other_steps { IsAllowed (limited_job 3) (both_there 3) (End (Limit 4 1)) → ⊥ }
{}
