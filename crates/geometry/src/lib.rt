// The geometry of one rank: settings, control record and lengths (here), the three numberings (`numbering`), and the entries
// of the pointer tables (`entry`). Every function answers for any argument.
#![tactic(auto)]

ghost use Rattle.std.specs.Prelude.{◌≡◌};
ghost use Rattle.geometry.specs.Lent.{lengths_in};

pub use entry::{Entry, place};
pub use numbering::{Number, PhysicalRow, Slot, VisibleRow, home, slot_row};

mod entry;
mod numbering;

// The settings, by the letters of document 01.
#[repr(C)]
#[derive(Clone, Copy)]
pub struct Settings {
    // visible rows
    pub n: u32,
    // quarantine slots
    pub q: u32,
    // bytes in a row
    pub w: u32,
    // tracker entries of a bank
    pub k: u32,
    // threshold
    pub a: u32,
    // accesses allowed per epoch and bank
    pub l: u32,
    // banks
    pub b: u32,
}

// The control record. Its places for banks from B on are 0 at set-up, and not looked at or changed afterwards.
#[repr(C)]
#[derive(Clone, Copy)]
pub struct Control {
    // next slot
    pub head: u32,
    // slots the head has gone by this epoch
    pub passed: u32,
    // for each bank, its tracker's spillover count
    pub spill: [u32; 16],
    // for each bank, its accepted accesses this epoch
    pub acts: [u32; 16],
}

// The control record at set-up.
pub const NEW: Control = Control {
    head: 0,
    passed: 0,
    spill: [0; 16],
    acts: [0; 16],
};

// Where the quarantine stands.
#[derive(Clone, Copy)]
pub struct Ring {
    // next slot
    pub head: u32,
    // slots the head has gone by this epoch
    pub passed: u32,
}

// The lengths of what the caller lends, in elements.
#[derive(Clone, Copy)]
pub struct Lengths {
    pub store: usize,
    pub forward: usize,
    pub reverse: usize,
    // tracker rows
    pub rows: usize,
    // tracker counts
    pub counts: usize,
}

// Returns the lengths of what is lent.
pub fn lengths_of(
    store: &[u8],
    forward: &[u16],
    reverse: &[u16],
    rows: &[u16],
    counts: &[u32],
) -> Lengths
    ensures { result ≡ lengths_in store forward reverse rows counts }
{
    Lengths {
        store: store.len(),
        forward: forward.len(),
        reverse: reverse.len(),
        rows: rows.len(),
        counts: counts.len(),
    }
}
