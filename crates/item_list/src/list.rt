ghost use Rattle.std.specs.Prelude.{◌≡◌};

use std::marker::Model;

/// The items of a `Vec`, in their order.
#[derive(Debug, Drop)]
pub struct ItemList<T> {
    items: Vec<T>,
}

impl<T> Model for ItemList<T> {
    ghost use Rattle.std.specs.Prelude.{List};

    ghost Value = { List T };

    ghost view = { λ list. list.items.items };
}

impl<T> ItemList<T> {
    /// The list of the items of a `Vec`.
    pub fn of(items: Vec<T>) -> Self
        ensures { result ≡ items.items }
    {
        ItemList { items }
    }

    /// The items.
    pub fn items(&self) -> &[T]
        ensures { result.now ≡ self.now }
    {
        &self.items
    }

    /// The items, as the `Vec` that they came in.
    pub fn into_vec(self) -> Vec<T>
        ensures { result.items ≡ self }
    {
        self.items
    }
}
