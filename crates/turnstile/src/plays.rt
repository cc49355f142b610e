//! What a seat learns by each atomic step.
ghost use Rattle.turnstile.specs.Views.{after_split, split_view, after_join, spent_view};
ghost use Rattle.turnstile.specs.Plays.{acquired, observed, appended, released};

use crate::stands::{Made, Stands};
use crate::view::View;
use atomic_table::{Join, Play, Split};
use std::marker::PhantomData;

/// The turn word goes from 0 to 1.
pub struct Acquire<T> {
    of: PhantomData<T>,
}

impl<T: Stands> Play<Option<T>, View<T::Entry, T::Setting>> for Acquire<T> {
    ghost then = { λ _. acquired T.setting T.legal T.stands };
}

/// The history's length is read.
pub struct Observe<T> {
    of: PhantomData<T>,
}

impl<T: Stands> Play<Option<T>, View<T::Entry, T::Setting>> for Observe<T> {
    ghost then = { λ _. observed T.legal };
}

/// The history's length grows by the entries made.
pub struct Append<M> {
    of: PhantomData<M>,
}

impl<T, E, K, M: Made<E>> Play<Option<T>, View<E, K>> for Append<M> {
    ghost then = { λ _. appended M.made };
}

/// The turn word goes to 0.
pub struct Release;

impl<T, E, K> Play<Option<T>, View<E, K>> for Release {
    ghost then = { λ _. released };
}

/// A seat is split off another.
pub struct SplitOff;

impl<E, K> Split<View<E, K>> for SplitOff {
    ghost left = { after_split };

    ghost right = { split_view };
}

/// A seat is joined to another.
pub struct JoinIn;

impl<E, K> Join<View<E, K>> for JoinIn {
    ghost both = { after_join };

    ghost spent = { spent_view };
}
