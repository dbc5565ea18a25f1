ghost use Rattle.std.specs.Prelude.{◌≡◌};

use std::marker::Model;

/// A list that a rule or a command keeps. Contracts see it as the list of its items.
#[derive(Drop)]
pub struct Items<T> {
    held: Vec<T>,
}

impl<T> Model for Items<T> {
    ghost use Rattle.std.specs.Prelude.{List};

    ghost Value = { List T };

    ghost view = { λ i. i.held.items };
}

impl<T> Items<T> {
    /// The list of these items, in the memory that they have.
    pub fn from_vec(items: Vec<T>) -> Items<T>
        ensures { result ≡ items.items }
    {
        Items { held: items }
    }

    /// The items, in order.
    pub fn as_slice(&self) -> &[T]
        ensures { result.now ≡ self.now }
    {
        &self.held
    }

    /// The items, in the memory that they have.
    pub fn into_vec(self) -> Vec<T>
        ensures { result.items ≡ self }
    {
        self.held
    }
}
