//! What the calls on a mutex come to.

/// What the entry of an address into the table came to.
#[derive(Clone, Copy, PartialEq, Eq, Debug)]
pub enum Entered {
    /// It was not in the table; from now on it is, and nobody holds it.
    Added,
    /// It was in the table, held or free; nothing changed.
    Known,
    /// It is not in the table, and there is no place for another address; nothing changed.
    Full,
}

/// What a lock came to.
#[derive(Clone, Copy, PartialEq, Eq, Debug)]
pub enum Locked {
    /// The mutex is the caller's from now on.
    Got,
    /// Another thread holds it; nothing changed.
    Held,
    /// The caller holds it already; nothing changed.
    Deadlock,
    /// It is not in the table, and there is no place for another address; nothing changed.
    Full,
}

/// What a try at a lock came to.
#[derive(Clone, Copy, PartialEq, Eq, Debug)]
pub enum Tried {
    /// The mutex is the caller's from now on.
    Got,
    /// A thread holds it, the caller or another; nothing changed.
    Busy,
    /// It is not in the table, and there is no place for another address; nothing changed.
    Full,
}

/// What an unlock came to.
#[derive(Clone, Copy, PartialEq, Eq, Debug)]
pub enum Unlocked {
    /// The caller held it, and nobody does now.
    Freed,
    /// The caller doesn't hold it; nothing changed.
    NotOwner,
}
