//! The table that the seats of a turnstile share.
//! Word 0 is the turn: 0 where nobody has it, else 1. Word 1 is the length of the history.
//! The one slot has the value.

use crate::stands::Stands;
use crate::view::View;
use atomic_table::{Seat as Place, Table, TableRule};
use std::alloc::Global;
use std::marker::PhantomData;
use std::snapshot::Snapshot;

/// The rule of the table, which every step keeps.
pub struct TurnRule<T> {
    of: PhantomData<T>,
}

impl<T: Stands> TableRule<Option<T>, View<T::Entry, T::Setting>, Snapshot<T>> for TurnRule<T> {
    ghost use Rattle.turnstile.specs.Views.{opening_view};
    ghost use Rattle.turnstile.specs.Rule.{TableInvariant};

    ghost holds = { λ about. TableInvariant T.setting T.legal T.stands (T.setting about.value) };

    ghost first = { λ about. opening_view (T.setting about.value) };
}

pub type Board<T> = Table<
    Option<T>,
    View<<T as Stands>::Entry, <T as Stands>::Setting>,
    Snapshot<T>,
    TurnRule<T>,
    Global,
>;

/// The right to take turns, and what its owner knows of the history. It has no bytes.
pub type Seat<T> = Place<Option<T>, View<<T as Stands>::Entry, <T as Stands>::Setting>>;
