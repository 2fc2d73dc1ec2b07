ghost use Rattle.std.specs.Prelude.{◌≡◌, ◌≤◌, ◌+◌, ◌<◌, [], ◌∷◌, ◌++◌, length, IfOk};
ghost use Rattle.cell_num.specs.Room.{Within};

use crate::NoMemory;
use std::alloc::Global;
use std::marker::Model;

/// Room for a number of items that was taken before: writing into it takes no memory.
#[derive(Debug, Drop)]
pub struct Room<T> {
    items: Vec<T>,
    most: usize,
}

impl<T> Model for Room<T> {
    ghost use Rattle.std.specs.Prelude.{◌≤◌, length};
    ghost use Rattle.std.specs.Vec.{vec_capacity, vec_len};
    ghost use Rattle.cell_num.specs.Room.{Within};

    ghost Value = { Within T };

    ghost view = { λ r. record { items = r.items.items; most = r.most } };

    ghost invariant = { λ r. (vec_len r.items ≤ r.most) × (r.most ≤ vec_capacity r.items) };
}

impl<T> Room<T> {
    /// The items, of which there are never more than there is room for.
    pub fn as_slice(&self) -> &[T]
        ensures items { result.now ≡ self.now.items }
        ensures within { length self.now.items ≤ self.now.most }
    {
        let _ = &self.most;
        self.items.as_slice()
    }
}

impl<T: Drop> Room<T> {
    /// Room for `most` items, and none of them.
    pub fn new(alloc: Global, most: usize) -> Result<Room<T>, NoMemory>
        ensures { IfOk result (λ room. (room.items ≡ []) × (room.most ≡ most)) }
    {
        let mut items = Vec::new(alloc);
        items.reserve(most)?;
        Ok(Room { items, most })
    }

    /// Adds an item at the end.
    pub fn push(&mut self, item: T)
        requires room { length self.old.items < self.old.most }
        ensures items { self.new.items ≡ self.old.items ++ item ∷ [] }
        ensures most { self.new.most ≡ self.old.most }
    {
        match self.items.push(item) {
            Ok(()) => {}
            Err(_) => unreachable!(),
        }
    }

    /// Takes all items out.
    pub fn clear(&mut self)
        ensures items { self.new.items ≡ [] }
        ensures most { self.new.most ≡ self.old.most }
    {
        self.items.clear();
    }
}

impl<T: Copy> Room<T> {
    /// Adds copies of the items at the end.
    pub fn extend(&mut self, items: &[T])
        requires room { length self.old.items + length items.now ≤ self.old.most }
        ensures items { self.new.items ≡ self.old.items ++ items.now }
        ensures most { self.new.most ≡ self.old.most }
    {
        match self.items.extend_from_slice(items) {
            Ok(()) => {}
            Err(_) => unreachable!(),
        }
    }
}
