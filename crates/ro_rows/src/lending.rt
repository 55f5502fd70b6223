//! Rows of leases that have a few pages of their replica.
ghost use Rattle.std.specs.Prelude.{◌≡◌, true, false, [], ◌∷◌, ◌++◌, length, map};
ghost use Rattle.ro_journal.specs.Leases.{lease_to};
ghost use Rattle.std.specs.List.{filter};
ghost use Rattle.ro_journal.specs.declared.losers.Lost.TheVariants.{Nobody};
ghost use Rattle.ro_journal.specs.declared.Did.TheVariants.{Served, Blocked};
ghost use Rattle.ro_journal.specs.declared.How.TheVariants.{Exit};
ghost use Rattle.ro_journal.specs.declared.Entry.TheVariants.{Take, Put, Part, Vote, Free, End};
ghost use Rattle.ro_kernel.specs.Kernel.{lives_on};
ghost use Rattle.ro_replica.specs.Views.{is_unstopped};
ghost use Rattle.ro_plain.specs.Order.{RaceFree};
ghost use Rattle.ro_legal.specs.Parts.{Whole, Pages, wish_with};
ghost use Rattle.ro_legal.specs.Core.{opening_core, lent_to, is_lendable};
ghost use Rattle.ro_legal.specs.Legal.{IsAllowed, Legal, replay};
ghost use Rattle.ro_legal.specs.Laws.{parts_since};
ghost use Rattle.ro_simulation.specs.Rows.{IsCovered};
ghost use Rattle.ro_simulation.specs.Drives.{driven};
ghost use Rattle.ro_rows.specs.Rows.{decisions};
ghost use Rattle.ro_rows.specs.Edges.{round};
ghost use Rattle.ro_rows.specs.Lending.{storing_job, struck_job, lending_job, one_driver_job, behind_in, behind, parts, first_out, exits_beside, one_exited, second_parted, second_waits, missed_by, shared_journal, is_part, wide_job, part, nine_parts, behind_nine};

/// A row: a thread is lent with the pages that it wishes, the last one missed first, and with its whole replica where one
/// driver runs, where the thread is alone, where a fault of it may be struck within a quantum, and where it missed pages more than
/// eight times. Two threads of a replica are out at once,
/// each with its code where that may not be written; a thread is not lent while one of the first two pages of its wish is out, nor
/// twice, nor its whole replica while another thread of that is out.
pub fn lend_row()
    ensures first { IsAllowed lending_job (behind []) (Take (lease_to 0 0 0)) }
    ensures nothing { lent_to (behind []) 0 0 ≡ Pages [] }
    ensures wished { lent_to (behind (parts 0 0)) 0 0 ≡ Pages (17 ∷ 16 ∷ []) }
    ensures alone { lent_to (opening_core lending_job) 0 0 ≡ Whole }
    ensures eight { lent_to (missed_by 8 (behind (parts 0 0))) 0 0 ≡ Pages (17 ∷ 16 ∷ []) }
    ensures nine { lent_to (missed_by 9 (behind (parts 0 0))) 0 0 ≡ Whole }
    ensures struck { lent_to (behind_in (struck_job 4102) []) 0 0 ≡ Whole }
    ensures later { lent_to (behind_in (struck_job 4103) []) 0 0 ≡ Pages [] }
    ensures of_another { lent_to (behind_in (struck_job 4102) []) 0 1 ≡ Pages [] }
    ensures unshared { lent_to (behind_in one_driver_job []) 0 0 ≡ Whole }
    ensures both { IsAllowed lending_job (behind first_out) (Take (lease_to 1 0 1)) }
    ensures not_twice { is_lendable (behind first_out) 0 0 ≡ false }
    ensures code { IsAllowed lending_job (behind second_waits) (Take (lease_to 1 0 1)) }
    ensures written { is_lendable (behind_in (storing_job true) second_waits) 0 1 ≡ false }
    ensures free { lent_to (behind second_parted) 0 1 ≡ Pages (16 ∷ []) }
    ensures taken { is_lendable (behind second_parted) 0 1 ≡ false }
    ensures other { is_lendable (behind second_parted) 1 1 ≡ true }
    ensures whole { is_lendable (missed_by 9 (behind first_out)) 0 1 ≡ false }
{}

/// A row: a lease comes back for the want of a page that its replica has and that it was not lent, of the code before any
/// instruction, of data behind those that need none. Then it is no put. That page comes first in its wish, which has sixteen pages at most, each once; the lease is no longer
/// out, and its thread missed a page once more. With the two pages that it needs it comes to its call, and is a put and no part; a
/// part is not earlier either, and no fault is struck.
pub fn part_row()
    ensures code { IsAllowed lending_job (behind (Take (lease_to 0 0 0) ∷ [])) (Part (lease_to 0 0 0) 0 0) }
    ensures no_put { IsAllowed lending_job (behind (Take (lease_to 0 0 0) ∷ [])) (Put (lease_to 0 0 0) 0 0) → ⊥ }
    ensures data { IsAllowed lending_job (behind second_waits) (Take (lease_to 1 0 1)) × IsAllowed lending_job (behind (second_waits ++ Take (lease_to 1 0 1) ∷ [])) (Part (lease_to 1 0 1) 1 0) }
    ensures wishes { (behind (parts 0 0)).wishes 0 0 ≡ 17 ∷ 16 ∷ [] }
    ensures again { wish_with 3 (1 ∷ 2 ∷ 3 ∷ 4 ∷ []) ≡ 3 ∷ 1 ∷ 2 ∷ 4 ∷ [] }
    ensures sixteen { wish_with 17 (16 ∷ 15 ∷ 14 ∷ 13 ∷ 12 ∷ 11 ∷ 10 ∷ 9 ∷ 8 ∷ 7 ∷ 6 ∷ 5 ∷ 4 ∷ 3 ∷ 2 ∷ 1 ∷ []) ≡ 17 ∷ 16 ∷ 15 ∷ 14 ∷ 13 ∷ 12 ∷ 11 ∷ 10 ∷ 9 ∷ 8 ∷ 7 ∷ 6 ∷ 5 ∷ 4 ∷ 3 ∷ 2 ∷ [] }
    ensures misses { (behind (parts 0 0)).misses 0 0 ≡ 2 }
    ensures home { (behind (parts 0 0)).leases ≡ [] }
    ensures put { IsAllowed lending_job (behind first_out) (Put (lease_to 0 0 0) 4 0) }
    ensures no_part { IsAllowed lending_job (behind first_out) (Part (lease_to 0 0 0) 4 0) → ⊥ }
    ensures early { IsAllowed lending_job (behind first_out) (Part (lease_to 0 0 0) 1 0) → ⊥ }
    ensures struck { IsAllowed lending_job (behind first_out) (Put (lease_to 0 0 0) 4 1) → ⊥ }
{}

/// A row: two parts may come in a row in which nothing was executed, and nine parts of a thread behind a vote. Then its lease is of
/// the whole replica, and a tenth page is no part.
pub fn nine_row()
    ensures twice { Legal wide_job (round 0 7 Served ++ part 0 ++ part 0) }
    ensures legal { Legal wide_job nine_parts }
    ensures nine { parts_since nine_parts 0 0 ≡ 9 }
    ensures whole { lent_to (replay wide_job nine_parts) 0 0 ≡ Whole }
    ensures tenth { Legal wide_job behind_nine }
{}

/// A row: a whole run in which two drivers are in one replica at once. Its journal is legal, and the simulation theorem covers it,
/// as it does the one that one driver makes for the same job; both decide the same. In each replica thread 0 comes back for the
/// want of its code and of its data; thread 1 does where it goes on beside thread 0, and else has the whole replica.
pub fn shared_row()
    ensures race_free { RaceFree lending_job.program }
    ensures shared { IsCovered lending_job shared_journal (Exit 0) [] }
    ensures driven { IsCovered lending_job (driven 100 lending_job) (Exit 0) [] }
    ensures decides { decisions shared_journal ≡ Vote 0 6 0 Nobody Served ∷ Vote 0 5 0 Nobody Blocked ∷ Vote 1 4 0 Nobody Served ∷ Free 0 ∷ Vote 0 2 0 Nobody Served ∷ End (Exit 0) ∷ [] }
    ensures the_same { decisions (driven 100 lending_job) ≡ decisions shared_journal }
    ensures parts { length (filter is_part (driven 100 lending_job)) ≡ 6 }
    ensures more_parts { length (filter is_part shared_journal) ≡ 8 }
{}

/// A row: thread 1 exits while thread 0 goes on. It stands at no stop any more, but it does not go on: thread 0 is lent with its whole
/// replica, and so it is lent with no page beside a thread that lives.
pub fn exited_row()
    ensures beside { lent_to (behind []) 0 0 ≡ Pages [] }
    ensures allowed { IsAllowed lending_job (behind exits_beside) (Vote 1 4 0 Nobody Served) }
    ensures exited { lives_on (behind one_exited).kernel 1 ≡ false }
    ensures no_stop { map (is_unstopped 1) (behind one_exited).replicas ≡ true ∷ true ∷ true ∷ [] }
    ensures whole { map (λ replica. lent_to (behind one_exited) replica 0) (0 ∷ 1 ∷ 2 ∷ []) ≡ Whole ∷ Whole ∷ Whole ∷ [] }
{}
