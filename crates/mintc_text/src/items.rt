//! The lists that values hold.
ghost use Rattle.std.specs.Prelude.{◌≡◌};

use crate::small::Name;
use std::marker::Model;

/// Items of one type, seen as their list.
#[derive(Debug, Drop)]
pub struct Items<T> {
    items: Vec<T>,
}

impl<T> Model for Items<T> {
    ghost use Rattle.std.specs.Prelude.{List};

    ghost Value = { List T };

    ghost view = { λ l. l.items.items };
}

impl<T> Items<T> {
    /// These items.
    pub fn new(items: Vec<T>) -> Items<T>
        ensures { result ≡ items.items }
    {
        Items { items }
    }

    /// The items as a slice.
    pub fn items(&self) -> &[T]
        ensures { result.now ≡ self.now }
    {
        &self.items
    }

    /// The items themselves.
    pub fn into_vec(self) -> Vec<T>
        ensures { result.items ≡ self }
    {
        self.items
    }
}

/// Names, seen as their list.
pub type Names = Items<Name>;

/// Numbers, seen as their list.
pub type Numbers = Items<u32>;

/// Bytes, seen as their list.
pub type Bytes = Items<u8>;
