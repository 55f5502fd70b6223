//! The simulation theorem: a legal journal's replicas simulate the unreplicated machine that its plan names.
#![tactic(auto)]

ghost use Rattle.std.specs.Prelude.{◌≡◌, ◌≢◌, ◌↔◌, ◌≤◌, ℕ, List, [], ◌∷◌, ◌++◌, Some};
ghost use Rattle.ro_journal.specs.declared.How.{How};
ghost use Rattle.ro_journal.specs.declared.How.TheVariants.{Exit, Limit, NoMajority, Sink};
ghost use Rattle.ro_journal.specs.declared.Did.{Did};
ghost use Rattle.ro_journal.specs.declared.Lease.{Lease};
ghost use Rattle.ro_journal.specs.declared.losers.Lost.{Lost};
ghost use Rattle.ro_journal.specs.declared.Entry.{Entry};
ghost use Rattle.ro_plain.specs.Machine.{Program, AllEnd};
ghost use Rattle.ro_plain.specs.Order.{RaceFree};
ghost use Rattle.ro_legal.specs.Core.{Job};
ghost use Rattle.ro_legal.specs.Legal.{Legal, MayPut, MayPart, replay};
ghost use Rattle.ro_legal.specs.Ideal.{StaysApart};
ghost use Rattle.ro_simulation.specs.Theorem.{Simulates, TwoThreeOrFive, WritesAsIdeal, AllOfOne, NamesFew, StrikesFewBetweenScrubs, StaysAlone, NeverDiffers, PassedLimit, CannotDiffer, EndsComplete, IsComplete};
ghost use Rattle.ro_simulation.specs.AtMostOne.{TwoOrThree, StrikesAlone, OneDiffers};
ghost use Rattle.ro_simulation.specs.Repeated.{IsRepeated};
ghost use Rattle.ro_simulation.specs.Guests.{exit_guest, locking_guest, usual_job};
ghost use Rattle.ro_simulation.specs.Rows.{flip_a0, one_struck, two_struck, IsCovered};
ghost use Rattle.ro_simulation.specs.Drives.{driven};
ghost use Rattle.ro_simulation.specs.Weaker.{StaysNearlyApart, loading_guest, slipping, slipped};
ghost use Rattle.ro_simulation.specs.Scrubbed.{hidden, scrubbed, unscrubbed};
ghost use Rattle.ro_journal.specs.Plan.{outcome_of};
ghost use Rattle.ro_legal.specs.Upsets.{Moment, Comes, Possible, IsGiven, journal_of, core_of, all_come, CorruptsOnly};
ghost use Rattle.ro_simulation.specs.Corruptions.{CorruptionsApart, CorruptsFewBetweenScrubs, WritesStill, CopiesStill, ScrubsStill};
ghost use Rattle.ro_simulation.specs.Corrupted.{corrupted_run, five_job, corrupted_two};
ghost use Rattle.ro_vote.specs.Numbers.{AtMostHalf};
ghost use Rattle.ro_journal.specs.declared.Entry.TheVariants.{Put, Part, Vote, Scrub};
ghost use Rattle.ro_journal.specs.Losers.{numbers};

/// The simulation theorem: in a legal journal of a race-free program whose faults stay apart, two, three or five
/// replicas simulate the unreplicated machine.
pub fn simulation()
    ensures { (job : Job) (journal : List Entry) → RaceFree job.program → TwoThreeOrFive job → Legal job journal → StaysApart job journal → Simulates job journal }
{}

/// The headline: what a run writes is the front of what the unreplicated machine writes, and all of it, with its
/// outcome, where the run ends by an exit, a trap or a deadlock.
pub fn headline()
    ensures { (job : Job) (journal : List Entry) → RaceFree job.program → TwoThreeOrFive job → Legal job journal → StaysApart job journal → WritesAsIdeal job journal }
{}

/// The tie: where a run ends by an exit, a trap or a deadlock, its plan, run on the unreplicated machine, has all its
/// steps, ends so too, and writes the same.
pub fn plan_repeats()
    ensures { (job : Job) (journal : List Entry) → RaceFree job.program → TwoThreeOrFive job → Legal job journal → StaysApart job journal → (how : How) → outcome_of journal ≡ Some how → IsComplete how → IsRepeated job journal how }
{}

/// Of two or three replicas: faults stay apart exactly where none strikes a replica while another is not alike; at most
/// one differs, and each copy leaves none that does; and a list of faults names few replicas exactly where it names one.
pub fn two_or_three_replicas()
    ensures apart { (job : Job) (journal : List Entry) → TwoOrThree job → StaysApart job journal ↔ StrikesAlone job journal }
    ensures differs { (job : Job) (journal : List Entry) → TwoOrThree job → Simulates job journal → OneDiffers job journal }
    ensures named { (job : Job) → TwoOrThree job → NamesFew job ↔ AllOfOne job.faults }
{}

/// Few struck replicas stay apart: where all faults name at most half of the replicas, they stay apart.
pub fn few_struck_replicas()
    ensures { (job : Job) (journal : List Entry) → RaceFree job.program → NamesFew job → Legal job journal → StaysApart job journal }
{}

/// Few struck replicas between scrubs stay apart: where faults strike at most half of the replicas from each scrub to the
/// next, each time whichever they like, they stay apart.
pub fn few_struck_between_scrubs()
    ensures { (job : Job) (journal : List Entry) → RaceFree job.program → Legal job journal → StrikesFewBetweenScrubs job journal → StaysApart job journal }
{}

/// One struck replica stays apart: where all faults name one replica, they strike none while another differs.
pub fn one_struck_replica()
    ensures { (job : Job) (journal : List Entry) → RaceFree job.program → AllOfOne job.faults → Legal job journal → StrikesAlone job journal }
{}

/// One thread is race-free: a program of which no execution makes a second thread has no races.
pub fn one_thread()
    ensures { (program : Program) → StaysAlone program → RaceFree program }
{}

/// No fault, no difference: without faults no vote has a loser, and no journal ends by a difference.
pub fn no_fault()
    ensures { (job : Job) (journal : List Entry) → RaceFree job.program → job.faults ≡ [] → Legal job journal → NeverDiffers journal }
{}

/// A limit is passed: where a journal ends by a limit, the steps that would have come next are an execution that is
/// longer than the limit.
pub fn limit_is_passed()
    ensures { (job : Job) (journal : List Entry) → RaceFree job.program → Legal job journal → StaysApart job journal → (steps next : ℕ) → outcome_of journal ≡ Some (Limit steps next) → PassedLimit job journal steps next }
{}

/// Completeness: a program whose executions are no longer than the limit comes to its own end, an exit, a trap or a
/// deadlock, unless the sink fails.
pub fn completeness()
    ensures { (job : Job) (journal : List Entry) → RaceFree job.program → TwoThreeOrFive job → Legal job journal → StaysApart job journal → AllEnd job.program job.settings.limit → CannotDiffer job → EndsComplete journal }
{}

/// A row: one struck register loses the vote, and the program exits with 7.
pub fn one_struck_row()
    ensures { IsCovered (usual_job exit_guest (flip_a0 1 ∷ [])) one_struck (Exit 7) [] }
{}

/// A row: where two replicas are struck alike, the journal is legal, but faults do not stay apart.
pub fn two_struck_row()
    ensures legal { Legal (usual_job exit_guest (flip_a0 0 ∷ flip_a0 1 ∷ [])) two_struck }
    ensures not_apart { StaysApart (usual_job exit_guest (flip_a0 0 ∷ flip_a0 1 ∷ [])) two_struck → ⊥ }
{}

/// A row: two threads that lock round their writes have no races, and the journal of one driver is covered.
pub fn locking_row()
    ensures race_free { RaceFree locking_guest }
    ensures covered { IsCovered (usual_job locking_guest []) (driven 200 (usual_job locking_guest [])) (Exit 0) (65 ∷ 66 ∷ []) }
{}

/// A row: alike has to ask that touched pages are backed. With the weaker form faults stay apart in a legal journal of a
/// race-free program that comes to no majority.
pub fn weaker_alike_row()
    ensures race_free { RaceFree loading_guest }
    ensures legal { Legal (usual_job loading_guest slipping) slipped }
    ensures nearly_apart { StaysNearlyApart (usual_job loading_guest slipping) slipped }
    ensures no_majority { outcome_of slipped ≡ Some NoMajority }
    ensures not_apart { StaysApart (usual_job loading_guest slipping) slipped → ⊥ }
{}

/// A row: two replicas are struck where nothing reads, one after the other. With a scrub between them faults stay apart, and
/// without one they do not.
pub fn scrubbed_row()
    ensures covered { IsCovered (usual_job loading_guest hidden) scrubbed (Exit 7) [] }
    ensures legal { Legal (usual_job loading_guest hidden) unscrubbed }
    ensures not_apart { StaysApart (usual_job loading_guest hidden) unscrubbed → ⊥ }
{}

/// Any corruption: whatever becomes of a replica, at any moment and while it is lent, the headline holds as long as
/// corruptions stay apart, and votes and scrubs repair as they do of listed faults.
pub fn any_corruption()
    ensures writes { (job : Job) (moments : List Moment) → RaceFree job.program → TwoThreeOrFive job → Possible job moments → CorruptionsApart job moments → WritesStill job moments }
    ensures copies { (job : Job) (moments before rest : List Moment) (thread count won : ℕ) (lost : Lost) (did : Did) → RaceFree job.program → Possible job moments → CorruptionsApart job moments → moments ≡ before ++ Comes (Vote thread count won lost did) ∷ rest → CopiesStill job before (Vote thread count won lost did) won (numbers lost) }
    ensures scrubs { (job : Job) (moments before rest : List Moment) (won : ℕ) (lost : Lost) → RaceFree job.program → Possible job moments → CorruptionsApart job moments → moments ≡ before ++ Comes (Scrub won lost) ∷ rest → ScrubsStill job before (Scrub won lost) won (numbers lost) }
    ensures limit { (job : Job) (moments : List Moment) → RaceFree job.program → Possible job moments → CorruptionsApart job moments → (steps next : ℕ) → (core_of job moments).ended ≡ Some (Limit steps next) → PassedLimit job (journal_of moments) steps next }
    ensures ends { (job : Job) (moments : List Moment) → RaceFree job.program → 3 ≤ job.settings.replicas → TwoThreeOrFive job → AllEnd job.program job.settings.limit → Possible job moments → CorruptionsApart job moments → (how : How) → (core_of job moments).ended ≡ Some how → ((bytes : ℕ) → how ≢ Sink bytes) → IsComplete how }
{}

/// Listed faults are corruptions: a lease in which faults are struck, or none, is one that came back with something of its
/// replica's shape. A legal journal is one along which no other corruption comes, and where its faults stay apart, those do.
pub fn listed_faults_are_corruptions()
    ensures put { (job : Job) (journal : List Entry) (lease : Lease) (count hit : ℕ) → Legal job journal → MayPut job (replay job journal) lease count hit → IsGiven job (replay job journal) (Put lease count hit) lease }
    ensures part { (job : Job) (journal : List Entry) (lease : Lease) (count hit : ℕ) → Legal job journal → MayPart job (replay job journal) lease count hit → IsGiven job (replay job journal) (Part lease count hit) lease }
    ensures possible { (job : Job) (journal : List Entry) → Legal job journal ↔ Possible job (all_come journal) }
    ensures same_journal { (journal : List Entry) → journal_of (all_come journal) ≡ journal }
    ensures same_core { (job : Job) (journal : List Entry) → core_of job (all_come journal) ≡ replay job journal }
    ensures apart { (job : Job) (journal : List Entry) → StaysApart job journal → CorruptionsApart job (all_come journal) }
{}

/// Few corrupted replicas: at most half of all, one of two or three and two of five, may do whatever they like for the
/// whole run: these corruptions stay apart, and the headline holds.
pub fn few_corrupted_replicas()
    ensures apart { (job : Job) (moments : List Moment) (named : List ℕ) → RaceFree job.program → Possible job moments → AtMostHalf job.settings.replicas named → CorruptsOnly named moments → CorruptionsApart job moments }
    ensures writes { (job : Job) (moments : List Moment) (named : List ℕ) → RaceFree job.program → TwoThreeOrFive job → Possible job moments → AtMostHalf job.settings.replicas named → CorruptsOnly named moments → WritesStill job moments }
{}

/// Few corrupted replicas between scrubs: where from each scrub to the next at most half of all are corrupted, each time
/// whichever they are, these corruptions stay apart, and the headline holds.
pub fn few_corrupted_between_scrubs()
    ensures apart { (job : Job) (moments : List Moment) → RaceFree job.program → Possible job moments → CorruptsFewBetweenScrubs job moments → CorruptionsApart job moments }
    ensures writes { (job : Job) (moments : List Moment) → RaceFree job.program → TwoThreeOrFive job → Possible job moments → CorruptsFewBetweenScrubs job moments → WritesStill job moments }
{}

/// A row: replica 1 of three becomes one of another memory, pc and counts, and its lease comes back as no run of it could.
/// It loses the vote, and the program exits with 7.
pub fn corrupted_row()
    ensures possible { Possible (usual_job exit_guest []) corrupted_run }
    ensures named { CorruptsOnly (1 ∷ []) corrupted_run }
    ensures ends { (core_of (usual_job exit_guest []) corrupted_run).ended ≡ Some (Exit 7) }
    ensures covered { WritesStill (usual_job exit_guest []) corrupted_run }
{}

/// A row: of five replicas two become such a one. A lease of the second comes back for the want of a page, and the next at its
/// fault. Both lose the vote, and the program exits with 7.
pub fn corrupted_two_row()
    ensures possible { Possible five_job corrupted_two }
    ensures named { CorruptsOnly (1 ∷ 3 ∷ []) corrupted_two }
    ensures ends { (core_of five_job corrupted_two).ended ≡ Some (Exit 7) }
    ensures covered { WritesStill five_job corrupted_two }
{}
