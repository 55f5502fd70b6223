//! The table of the page, and what each seat knows of its ranks.
ghost use Rattle.std.specs.Prelude.{ℕ, List};
ghost use Rattle.ro_lockpage.specs.Hands.{Hand};
ghost use base.Fml.{ftrue};

use atomic_table::{Join, Play, Split, TableRule};
use std::marker::{Brand, Model, PhantomData};

/// How many mutexes a page has, and rows for each.
#[derive(Clone, Copy)]
pub struct Shape {
    pub mutexes: u32,
    pub rows: u32,
}

/// What a seat knows. No value of it is made.
pub struct View {
    pub ghost hands: { List Hand },
}

impl Model for View {
    ghost also_owns = { λ _. ftrue };
}

/// Names a rank of a mutex, a thread, and the word that is to be exchanged.
pub trait Asking {
    ghost at_mutex: { ℕ };

    ghost at_rank: { ℕ };

    ghost for_thread: { ℕ };

    ghost on_word: { ℕ };
}

impl Asking for Brand {
    ghost at_mutex = { 0 };

    ghost at_rank = { 0 };

    ghost for_thread = { 0 };

    ghost on_word = { 0 };
}

/// The rule.
pub struct Law;

impl TableRule<(), View, Shape> for Law {
    ghost use Rattle.ro_lockpage.specs.Seats.{Rule, holding};
    ghost use Rattle.ro_lockpage.specs.Hands.{fresh_hands};

    ghost holds = { Rule };

    ghost first = { λ _. holding (fresh_hands 0 8) };
}

/// A step that decides the rank where the word is still that of an older one.
pub struct Exchange<A>(PhantomData<A>);

impl<A: Asking> Play<(), View> for Exchange<A> {
    ghost use Rattle.ro_lockpage.specs.Seats.{Exchanges};

    ghost then = { Exchanges A.at_mutex A.at_rank A.for_thread A.on_word };
}

/// A step that looks at the word of the rank.
pub struct Look<A>(PhantomData<A>);

impl<A: Asking> Play<(), View> for Look<A> {
    ghost use Rattle.ro_lockpage.specs.Seats.{Looks};

    ghost then = { Looks A.at_mutex A.at_rank };
}

/// A seat gives its first hand to another.
pub struct Deal;

impl Split<View> for Deal {
    ghost use Rattle.std.specs.Prelude.{[], ◌∷◌};
    ghost use Rattle.ro_lockpage.specs.Seats.{holding};
    ghost use Rattle.ro_lockpage.specs.Hands.{first_of, others_of};

    ghost left = { λ v. holding (others_of v.hands) };

    ghost right = { λ v. holding (first_of v.hands ∷ []) };
}

/// A seat takes another's hands, in front of its own.
pub struct Gather;

impl Join<View> for Gather {
    ghost use Rattle.std.specs.Prelude.{[], ◌++◌};
    ghost use Rattle.ro_lockpage.specs.Seats.{holding};

    ghost both = { λ v w. holding (w.hands ++ v.hands) };

    ghost spent = { holding [] };
}
