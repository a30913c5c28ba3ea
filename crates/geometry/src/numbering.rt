// The three numberings: visible rows, slots and physical rows, a type each, and the physical row that is a row's home or a slot.
ghost use Rattle.std.specs.Prelude.{◌≡◌, ℕ};
ghost use Rattle.geometry.specs.Numbering.{visible, slot, home_of, slot_row_of};

use crate::Settings;

// A row as the guest numbers it, 0 to N - 1.
#[derive(Clone, Copy, PartialEq, Eq)]
pub struct VisibleRow(pub u16);

// A quarantine slot, 0 to Q - 1.
#[derive(Clone, Copy, PartialEq, Eq)]
pub struct Slot(pub u16);

// A row of the memory itself, 0 to N + Q - 1. 64 bits hold N + s for every N and s.
#[derive(Clone, Copy, PartialEq, Eq)]
pub struct PhysicalRow(pub u64);

// A numbering whose numbers stand in a pointer table.
pub trait Number: Copy {
    // what has a number, and its number
    ghost of_number: { ℕ → Self };

    ghost number_of: { Self → ℕ };

    // Returns what has the number.
    fn numbered(n: u16) -> Self
        ensures { result ≡ of_number n };

    // Returns its number.
    fn number(self) -> u16
        ensures { result ≡ number_of self };
}

impl Number for Slot {
    ghost of_number = { slot };

    ghost number_of = { λ s. s.0 };

    fn numbered(n: u16) -> Slot {
        Slot(n)
    }

    fn number(self) -> u16 {
        let Slot(slot) = self;
        slot
    }
}

impl Number for VisibleRow {
    ghost of_number = { visible };

    ghost number_of = { λ row. row.0 };

    fn numbered(n: u16) -> VisibleRow {
        VisibleRow(n)
    }

    fn number(self) -> u16 {
        let VisibleRow(row) = self;
        row
    }
}

// The home of visible row r is physical row r.
pub fn home(row: VisibleRow) -> PhysicalRow
    ensures { result ≡ home_of row }
{
    PhysicalRow(row.0 as u64)
}

// Slot s is physical row N + s.
pub fn slot_row(settings: Settings, slot: Slot) -> PhysicalRow
    ensures { result ≡ slot_row_of settings slot }
{
    PhysicalRow((settings.n as u64) + (slot.0 as u64))
}
