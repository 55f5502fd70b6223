//! Laws of verdicts on any number of views.
ghost use Rattle.std.specs.Prelude.{◌≡◌, ◌<◌, ◌*◌, ℕ, List, length, false};
ghost use Rattle.ro_event.specs.Views.{View};
ghost use Rattle.ro_vote.specs.Numbers.{is_among};
ghost use Rattle.ro_vote.specs.Verdict.{Won, Split, verdict_of};
ghost use Rattle.ro_vote.specs.Votes.{NoneIsHeld, IsWonBy};

/// Of any number of views: a vote is won by the lowest of those whose view more than half hold, and all others lose. So the
/// winner is no loser, and fewer than half lose. Without a winner no view is held by more than half.
pub fn won_by_most()
    ensures won { (views : List View) (won : ℕ) (lost : List ℕ) → Won won lost ≡ verdict_of views → IsWonBy views won lost }
    ensures winner_stays { (views : List View) (won : ℕ) (lost : List ℕ) → verdict_of views ≡ Won won lost → is_among lost won ≡ false }
    ensures few_lose { (views : List View) (won : ℕ) (lost : List ℕ) → verdict_of views ≡ Won won lost → 2 * length lost < length views }
    ensures split { (views : List View) → Split ≡ verdict_of views → NoneIsHeld views }
{}
