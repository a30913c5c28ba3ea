// The tracker over lent tables: step 2 of an access, in the bank of its place, and the start of an epoch. The entry that step
// 2 changes is found first, which writes nothing; then it is followed.
#![tactic(auto)]

ghost use Rattle.std.specs.Prelude.{◌≡◌, ◌<◌, length, replicate};
ghost use Rattle.geometry.specs.Entry.{empty};
ghost use Rattle.tracking.specs.Entry.{table_after, spill_after};
ghost use Rattle.tracker.specs.Finding.{entry_for, update_of, entry_changed, estimate_told, Findable, Countable, Followable};

use banks::Bank;
use geometry::{Entry, PhysicalRow};

// What step 2 changes in the tables.
#[derive(Clone, Copy)]
pub struct Update {
    // the entry
    pub entry: usize,
    // the estimate, which becomes the entry's count
    pub estimate: u32,
}

// Returns the entry that step 2 changes at a place of that bank, if any; each bank has k entries of the tables. (To give the
// estimate with it, in a struct, costs an access a tenth of its time.)
pub fn find(place: PhysicalRow, k: usize, bank: Bank, rows: &[u16], counts: &[u32]) -> Option<usize>
    requires { Findable k bank place.0 rows.now counts.now }
    ensures { result ≡ entry_for k bank place.0 rows.now counts.now }
{
    let from = bank.index * k;
    let to = from + k;
    if let Some(i) = scan::index_of(&rows[from..to], place.0 as u16) {
        return Some(from + i);
    }
    let i = scan::index_of(&counts[from..to], bank.spill)?;
    Some(from + i)
}

// Returns what step 2 changes, by the entry that `find` gave.
pub fn update_of(entry: Option<usize>, counts: &[u32]) -> Option<Update>
    requires { Countable entry counts.now }
    ensures { result ≡ update_of entry counts.now }
{
    entry.map(|i| Update {
        entry: i,
        estimate: counts[i] + 1,
    })
}

// Returns the estimate of step 2, 0 for none.
pub fn estimate_of(update: Option<Update>) -> u32
    ensures { result ≡ estimate_told update }
{
    update.map_or(0, |u| u.estimate)
}

// Returns the bank's `spill` after step 2.
pub fn spill_after(update: Option<Update>, spill: u32) -> u32
    requires { spill < 4294967295 }
    ensures { result ≡ spill_after (entry_changed update) spill }
{
    match update {
        Some(_) => spill,
        None => spill + 1,
    }
}

// Follows step 2 in the tables.
pub fn follow(update: Option<Update>, place: PhysicalRow, rows: &mut [u16], counts: &mut [u32])
    requires { Followable update place.0 rows.old counts.old }
    ensures rows { rows.new ≡ table_after (entry_changed update) place.0 rows.old }
    ensures counts { counts.new ≡ table_after (entry_changed update) (estimate_told update) counts.old }
{
    if let Some(u) = update {
        rows[u.entry] = place.0 as u16;
        counts[u.entry] = u.estimate;
    }
}

// The trackers of all banks as they are at the start of an epoch: no entry names a place, and every count is 0.
pub fn reset(rows: &mut [u16], counts: &mut [u32])
    ensures rows { rows.new ≡ replicate (length rows.old) empty }
    ensures counts { counts.new ≡ replicate (length counts.old) 0 }
{
    rows.fill(Entry::EMPTY.0);
    counts.fill(0);
}
