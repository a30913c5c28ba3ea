// The entries of the pointer tables: what one names, a slot (forward table) or a visible row (reverse table), or nothing; and
// the place of a row by its forward entry.
ghost use Rattle.std.specs.Prelude.{◌≡◌};
ghost use Rattle.geometry.specs.Numbering.{physical};
ghost use Rattle.geometry.specs.Entry.{named, holding};
ghost use Rattle.geometry.specs.Place.{place_in};

use crate::numbering::{Number, PhysicalRow, Slot, VisibleRow};
use crate::{Settings, numbering};

// An entry of a pointer table, as it stands there.
#[derive(Clone, Copy, PartialEq, Eq)]
pub struct Entry(pub u16);

impl Entry {
    // The mark: it names nothing.
    pub const EMPTY: Entry = Entry(65535);

    // The entry that names it.
    pub fn of<T: Number>(names: T) -> Entry
        ensures { result ≡ holding T.number_of names }
    {
        Entry(names.number())
    }

    // What the entry names.
    pub fn named<T: Number>(self) -> Option<T>
        ensures { result ≡ named T.of_number self.0 }
    {
        if self == Entry::EMPTY {
            return None;
        }
        Some(T::numbered(self.0))
    }
}

// Returns the place of a row whose forward entry names that slot, or none (step 1).
pub fn place(s: Settings, row: VisibleRow, entry: Option<Slot>) -> PhysicalRow
    ensures { result ≡ physical (place_in s entry row.0) }
{
    match entry {
        Some(slot) => numbering::slot_row(s, slot),
        None => numbering::home(row),
    }
}
