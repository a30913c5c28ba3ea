// The marks of the worn slots, made in one pass over the trackers.
ghost use Rattle.std.specs.Prelude.{◌≡◌, false, ℕ, ◌<◌, ◌≤◌, length, get_or, replicate};
ghost use Rattle.geometry.specs.Numbering.{slot_row};
ghost use Rattle.banks.specs.Banks.{bank_of};
ghost use Rattle.seek.specs.Seeking.{marked_by, MarkedIn, Marked};

use crate::search::Search;
use geometry::{PhysicalRow, Settings, Slot};

// Marks the slot whose physical row an entry of a bank names as worn or not, where it names one of that bank.
fn mark(s: Settings, bank: usize, name: u16, is: bool, marks: &mut [bool])
    requires { 1 ≤ s.b }
    ensures { marks.new ≡ marked_by s bank name is marks.old }
{
    if let Some(slot) = (name as u32).checked_sub(s.n) {
        let slot = slot as usize;
        if slot < marks.len() && banks::bank_of(s, PhysicalRow(name as u64)) == bank {
            // Kept: after `marks.get_mut(slot)` a proof knows the length of the marks, and no mark.
            marks[slot] = is;
        }
    }
}

impl Search<'_> {
    // Marks every slot of a bank, from the bank's last entry to its first: so the lowest entry that names a slot decides.
    fn mark_bank(&self, bank: usize, marks: &mut [bool])
        requires { (bank < self.now.s.b) × (self.now.s.q ≤ length marks.old)
            × ((i : ℕ) → i < self.now.s.q → bank_of self.now.s (slot_row self.now.s i) ≡ bank → get_or marks.old i false ≡ false) }
        ensures { MarkedIn self.now.s self.now.changed self.now.rows.now self.now.counts.now bank marks.old marks.new }
    {
        let k = self.s.k as usize;
        let from = bank * k;
        // Kept: the index among all entries is compared with `changed`; a chain of both tables would have to compute it again.
        for i in (from..from + k).rev() {
            if i != self.changed {
                let is = self.s.a <= self.counts[i];
                mark(self.s, bank, self.rows[i], is, marks);
            }
        }
    }

    // Marks every slot, bank after bank.
    pub fn mark_worn(&self, marks: &mut [bool])
        requires { marks.old ≡ replicate 5500 false }
        ensures { Marked self.now.s self.now.changed self.now.rows.now self.now.counts.now marks.new }
    {
        for bank in 0..self.s.b as usize {
            self.mark_bank(bank, marks);
        }
    }
}
