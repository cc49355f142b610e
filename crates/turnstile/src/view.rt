//! What a seat knows. Only clauses read it, and no value of it is made.

use std::collections::LinkedList;

/// Where a seat is in its turn.
pub enum Phase<E> {
    /// It does not have the turn.
    Free,
    /// It has the turn. The value stands for this history, which the seat has not seen yet.
    Taken(LinkedList<E>),
    /// It has the turn, and has seen the whole history.
    Known,
    /// It has the turn, and has appended its entries to the history.
    Told,
}

/// What a seat knows of the history.
pub struct View<E, K> {
    pub phase: Phase<E>,
    /// A prefix of the history.
    pub seen: LinkedList<E>,
    /// The setting of the turnstile's value. A seat that was joined to another has none.
    pub setting: Option<K>,
    /// The seat's own entries, each with its place in the history, from 0.
    pub mine: LinkedList<(u64, E)>,
    /// The entries of the seats that were joined to it, with their places.
    pub met: LinkedList<(u64, E)>,
    /// How many seats were split off it.
    pub splits: u64,
    /// The levels of the seats that it is made of, its own first. The first seat has level 0, and a seat that
    /// is split off another has one more than that one. A seat that was joined to another has none.
    pub levels: LinkedList<u64>,
    /// The levels of the seats that were split off the seats that it is made of.
    pub children: LinkedList<u64>,
    /// What both seats had seen at each join, the last join first.
    pub olds: LinkedList<LinkedList<E>>,
}
