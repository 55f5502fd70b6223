//! Votes of up to five replicas.
ghost use Rattle.std.specs.Prelude.{◌≡◌, ◌≤◌, ◌↔◌, length, not, slice_get, true, IsNone, IfSome, Some, None, if◌then◌else◌};
ghost use Rattle.std.specs.Option.{option_map};
ghost use Rattle.ro_event.specs.Views.{same_view};
ghost use Rattle.ro_journal.specs.Losers.{numbers};
ghost use Rattle.ro_vote.specs.Verdict.{most_hold, differing_from, verdict_of};
ghost use Rattle.ro_vote.specs.Votes.{verdict_by, NoneIsHeld, IsWonBy};

use ro_event::View;
use ro_journal::Lost;

/// A majority: the lowest replica of those that show the same, and those that show something else.
#[derive(Clone, Copy, Debug, PartialEq, Eq)]
pub struct Won {
    pub won: u32,
    pub lost: Lost,
}

/// The majority of at most five replicas, or `None` where more than half of them show no view.
#[tactic(auto, unfolding(crate::specs::Verdict::verdict_of))]
pub fn verdict(views: &[View]) -> Option<Won>
    requires { length views.now ≤ 5 }
    ensures verdict { verdict_by result ≡ verdict_of views.now }
    ensures split { IsNone result ↔ NoneIsHeld views.now }
    ensures majority { IfSome result (λ w. IsWonBy views.now w.won (numbers w.lost)) }
{
    for (number, view) in views.iter().enumerate() {
        if let Some(lost) = losers(number, view, views) {
            return Some(Won {
                won: number as u32,
                lost,
            });
        }
    }
    None
}

// Who shows something else than this view, which a replica shows, where more than half show it.
#[tactic(auto, using(crate::proofs::Answered::counts))]
fn losers(shower: usize, view: &View, views: &[View]) -> Option<Lost>
    requires few { length views.now ≤ 5 }
    requires shown { slice_get views.now shower ≡ Some view.now }
    ensures { option_map numbers result ≡ (if most_hold views.now view.now then Some (differing_from view.now 0 views.now) else None) }
{
    let mut lost = Lost::Nobody;
    for (number, other) in views.iter().enumerate() {
        if differs(number == shower, view, other) {
            lost = lost.with(number as u32)?;
        }
    }
    if 2 * lost.count() < views.len() {
        Some(lost)
    } else {
        None
    }
}

// Whether two views differ. Where they are one replica's they are not compared.
fn differs(is_own: bool, view: &View, other: &View) -> bool
    requires { is_own ≡ true → other.now ≡ view.now }
    ensures { result ≡ not (same_view view.now other.now) }
{
    !is_own && !view.same(other)
}
