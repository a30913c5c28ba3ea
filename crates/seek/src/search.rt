// Whether the head skips a slot: the tracker of the slot's bank is searched.
ghost use Rattle.std.specs.Prelude.{◌≡◌, ◌≢◌, ◌+◌, ◌*◌, ◌<◌, set, unwrap_or, IfSome};
ghost use Rattle.basics.specs.Portions.{portion};
ghost use Rattle.scan.specs.Scan.{index_of};
ghost use Rattle.geometry.specs.Entry.{empty};
ghost use Rattle.seek.specs.Seeking.{Seekable};

use geometry::{PhysicalRow, Settings, Slot};

// What is searched for one row: the trackers as they are before step 2, but for the entry that step 2 will change.
#[derive(Clone, Copy)]
pub struct Search<'a> {
    pub s: Settings,
    // the row's forward entry: its own slot, which is skipped
    pub own: Option<Slot>,
    // the entry that step 2 will change, of the entries of all banks
    pub changed: usize,
    pub rows: &'a [u16],
    pub counts: &'a [u32],
    ghost seekable: { Seekable s changed rows.now counts.now },
}

impl Search<'_> {
    ghost use Rattle.seek.specs.Search.{worn_in, skips_in};

    // Returns the lowest entry of a bank that names a physical row.
    fn lowest(&self, bank: usize, name: u16) -> Option<usize>
        requires { (bank < self.now.s.b) × (name ≢ empty) }
        ensures lowest { let k = self.now.s.k in let from = bank * k in
            unwrap_or result (from + k) ≡ from + index_of name (portion k bank (set self.now.rows.now self.now.changed empty)) }
        ensures inside { IfSome result (λ i. i < bank * self.now.s.k + self.now.s.k) }
    {
        let k = self.s.k as usize;
        let from = bank * k;
        let rows = &self.rows[from..from + k];
        let i = scan::index_of(rows, name)?;
        if from + i != self.changed {
            return Some(from + i);
        }
        let next = i + 1;
        Some(from + next + scan::index_of(&rows[next..], name)?)
    }

    // Tells whether the lowest entry of a physical row's bank that names the row has a count of the threshold or more.
    fn is_worn(&self, row: PhysicalRow) -> bool
        requires { row.0 < empty }
        ensures { result ≡ worn_in self.now row.0 }
    {
        match self.lowest(banks::bank_of(self.s, row), row.0 as u16) {
            Some(i) => self.s.a <= self.counts[i],
            None => false,
        }
    }

    // Tells whether the head skips a slot.
    pub fn is_skipped(&self, slot: Slot) -> bool
        requires { slot.0 < self.now.s.q }
        ensures { result ≡ skips_in self.now slot.0 }
    {
        self.own == Some(slot) || self.is_worn(geometry::slot_row(self.s, slot))
    }
}
