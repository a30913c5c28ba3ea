// The search for the destination of a row that is quarantined (step 4): how many slots the head skips. It looks at the
// trackers as they are before step 2, and leaves out the entry that step 2 will change. Nothing lent is written here.
// For each of the first 16 slots the tracker of the slot's bank is searched (`search`). Where all of them are skipped, the
// worn slots are marked in one pass over the trackers (`marking`): an access that is refused for want of a slot, again and
// again, would else search a tracker for each slot that is left.
#![tactic(auto)]

ghost use Rattle.std.specs.Prelude.{◌≡◌, ℕ, ◌+◌, ◌-◌, ◌%◌, ◌<◌, ◌≤◌, Bool};
ghost use Rattle.geometry.specs.Numbering.{slot};
ghost use Rattle.geometry.specs.Entry.{forward_entry_of};
ghost use Rattle.engine.specs.Round.{skipped_of};
ghost use Rattle.seek.specs.Seeking.{skips_before, Seekable};

use geometry::{Ring, Settings, Slot};
use search::Search;

mod marking;
mod search;

// Returns the slot after a slot, round Q.
fn after(q: u32, at: Slot) -> Slot
    requires { (at.0 < q) × (q ≤ 5500) }
    ensures { result.0 ≡ (at.0 + 1) % q }
{
    let next = at.0 + 1;
    if next == q as u16 {
        Slot(0)
    } else {
        Slot(next)
    }
}

// Returns how many of so many slots from one on, round Q, are skipped before the first that is not, by a test of a slot.
// A chain of the slots up to Q and of those from 0 on takes half as long again to walk (5,400 slots in 12.2 µs, not 8.2).
fn skipped_by<F: Fn(Slot) -> bool>(q: u32, from: Slot, most: u32, skips: F) -> u32
    requires inside { (from.0 < q) × (q ≤ 5500) }
    requires callable { (s : ℕ) → s < q → F.pre skips (slot s) }
    ensures { (skip : ℕ → Bool) → ((s : ℕ) → s < q → (b : Bool) → F.post skips (slot s) b → b ≡ skip s)
        → result ≡ skipped_of skip q most from.0 }
{
    let mut at = from;
    for n in 0..most {
        if !skips(at) {
            return n;
        }
        at = after(q, at);
    }
    most
}

// Returns how many slots the head skips, of the Q − `passed` that it may still look at.
#[tactic(auto, using(crate::proofs::Turns::first_16))]
pub fn skipped(
    s: Settings,
    ring: Ring,
    entry: Option<Slot>,
    changed: usize,
    rows: &[u16],
    counts: &[u32],
) -> u32
    requires { Seekable s changed rows.now counts.now × (ring.head < s.q) × (ring.passed ≤ s.q) }
    ensures { let skip = skips_before s (forward_entry_of entry) changed rows.now counts.now in
        result ≡ skipped_of skip s.q (s.q - ring.passed) ring.head }
{
    let search = Search {
        s,
        own: entry,
        changed,
        rows,
        counts,
    };
    let most = s.q - ring.passed;
    let head = Slot(ring.head as u16);
    let n = skipped_by(s.q, head, most.min(16), |slot| search.is_skipped(slot));
    if n < 16 {
        return n;
    }
    let mut marks = [false; 5500];
    search.mark_worn(&mut marks);
    let is_marked = |slot: Slot| search.own == Some(slot) || marks[slot.0 as usize];
    skipped_by(s.q, head, most, is_marked)
}
