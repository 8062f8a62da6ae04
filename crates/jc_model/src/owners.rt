//! A value in three equal copies, made while memory may still be refused, so that a later step needs none.
ghost use Rattle.std.specs.Prelude.{◌≡◌, IfOk};

use crate::OutOfMemory;
use crate::share::Share;
use std::marker::Model;

/// Three equal values; contracts see one.
#[derive(Drop)]
pub struct Owners<T> {
    first: T,
    second: T,
    third: T,
}

impl<T> Model for Owners<T> {
    ghost use Rattle.std.specs.Prelude.{◌≡◌};

    ghost Value = { T };

    ghost view = { λ t. t.first };

    ghost invariant = { λ t. (t.second ≡ t.first) × (t.third ≡ t.first) };
}

impl<T> Owners<T> {
    /// Three values that are equal.
    pub fn new(first: T, second: T, third: T) -> Owners<T>
        requires second { second ≡ first }
        requires third { third ≡ first }
        ensures { result ≡ first }
    {
        Owners {
            first,
            second,
            third,
        }
    }

    /// One of the three.
    pub fn first(&self) -> &T
        ensures { result.now ≡ self.now }
    {
        &self.first
    }

    /// Each of the three, changed by one function.
    pub fn map<U, F: Fn(T) -> U>(self, f: F) -> Owners<U>
        requires callable { (x : T) → F.pre f x }
        requires one { (x : T) (y z : U) → F.post f x y → F.post f x z → y ≡ z }
        ensures { F.post f self result }
    {
        let Owners {
            first,
            second,
            third,
        } = self;
        Owners::new(f(first), f(second), f(third))
    }

    /// All three.
    pub fn into_three(self) -> (T, T, T)
        ensures first { result.0 ≡ self }
        ensures second { result.1 ≡ self }
        ensures third { result.2 ≡ self }
    {
        let Owners {
            first,
            second,
            third,
        } = self;
        (first, second, third)
    }
}

impl<T: Share + Drop> Owners<T> {
    /// Three further copies of a value.
    pub fn of(value: &T) -> Result<Owners<T>, OutOfMemory>
        ensures { IfOk result (λ t. t ≡ value.now) }
    {
        let first = value.share()?;
        let second = value.share()?;
        let third = value.share()?;
        Ok(Owners::new(first, second, third))
    }

    /// One of the three; the others are let go.
    pub fn into_first(self) -> T
        ensures { result ≡ self }
    {
        self.into_three().0
    }
}
