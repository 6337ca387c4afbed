use crate::area::{Area, AreaName};
use arrayvec::ArrayVec;
use std::marker::Model;

/// The most areas that a volume has: two headers, 32 keyslots and 32 segments.
pub const MOST_AREAS: usize = 66;

/// An area with its name.
#[derive(Clone, Copy, PartialEq, Eq, Default)]
pub struct Entry {
    /// What the area is for.
    pub name: AreaName,
    /// Where it lies, in bytes.
    pub area: Area,
}

/// The areas of a volume, at most 66, in the order of their names, each name once.
///
/// They are held in place: no call takes memory.
#[derive(Clone, Drop)]
pub struct Areas {
    entries: ArrayVec<Entry, MOST_AREAS>,
}

impl Model for Areas {
    ghost use Rattle.std.specs.Prelude.{List};
    ghost use Rattle.luks_area.specs.declared.areas.Entry.{Entry};
    ghost use Rattle.luks_area.specs.Names.{IsIncreasing};

    ghost Value = { List Entry };

    ghost view = { λ a. a.entries.items };

    ghost invariant = { λ a. IsIncreasing a.entries.items };
}

impl Areas {
    ghost use Rattle.std.specs.Prelude.{◌≡◌, ◌<◌, ◌≤◌, [], ◌∷◌, ◌++◌, length};
    ghost use Rattle.luks_area.specs.declared.area.Area.{Area as TheArea};
    ghost use Rattle.luks_area.specs.declared.area.AreaName.{AreaName as TheName};
    ghost use Rattle.luks_area.specs.Area.{IsBefore};
    ghost use Rattle.luks_area.specs.Names.{HasArea, IsIncreasing};

    /// No areas.
    pub fn new() -> Self
        ensures { result ≡ [] }
    {
        Areas {
            entries: ArrayVec::new(),
        }
    }

    /// Adds the area of `name`, which must follow the names that are there. There is room for
    /// 66; the area may lie anywhere, also past a volume's end.
    pub fn push(&mut self, name: AreaName, area: Area)
        requires room { length self.old < 66 }
        requires last { (n : TheName) (a : TheArea) → HasArea self.old n a → IsBefore n name }
        ensures { self.new ≡ self.old ++ record { name = name; area = area } ∷ [] }
    {
        self.entries.push(Entry { name, area });
    }

    /// How many areas there are.
    pub fn len(&self) -> usize
        ensures { result ≡ length self.now }
    {
        self.entries.len()
    }

    /// The areas in the order of their names: headers, keyslots by number, segments by number.
    pub fn as_slice(&self) -> &[Entry]
        ensures entries { result.now ≡ self.now }
        ensures increasing { IsIncreasing self.now }
        ensures most { length self.now ≤ 66 }
    {
        self.entries.as_slice()
    }
}
