// The refusals that come before step 2: 1 to 7, where 7 is that of the row's pointers, in the order of document 01. Nothing
// lent is written here.
#![tactic(auto)]

ghost use Rattle.std.specs.Prelude.{◌≡◌, ◌*◌, ◌≤◌, length, get_or};
ghost use Rattle.refusals.specs.Refusals.{number_in};
ghost use Rattle.geometry.specs.Entry.{empty, slot_of, row_of};
ghost use Rattle.banks.specs.Banks.{most_banks};
ghost use Rattle.engine.specs.State.{tables_in};
ghost use Rattle.engine.specs.Ladder.{settings_number, fit_number, ring_unsound, tracker_unsound, control_unsound, control_number};
ghost use Rattle.engine.specs.Ladder.{read_asked, write_asked, write_off, look_asked};
ghost use Rattle.engine.specs.Ladder.{points_back, destination_unsound, row_number};
ghost use Rattle.ladder.specs.Stages.{first_unsound, others_unsound};

use engine::Asked;
use geometry::{Control, Entry, Lengths, Ring, Settings, Slot, VisibleRow};
use refusals::Refusal;

// Refuses settings: with 1 where one is outside its range, with 2 where L is too large.
#[tactic(auto, using(crate::proofs::Rules::rungs), unfolding(engine::specs::Ladder::settings_number))]
pub fn check_settings(s: Settings) -> Result<(), Refusal>
    ensures { number_in result ≡ settings_number s }
{
    if !conditions::ranges_hold(s) {
        return Err(Refusal::Settings);
    }
    if !conditions::limit_holds(s) {
        return Err(Refusal::Together);
    }
    Ok(())
}

// Refuses settings and lengths, with 1, 2 or 3: what a set-up has to pass.
#[tactic(auto, using(crate::proofs::Rules::rungs), unfolding(engine::specs::Ladder::fit_number))]
pub fn check_fit(s: Settings, lengths: Lengths) -> Result<(), Refusal>
    ensures { number_in result ≡ fit_number s lengths }
{
    check_settings(s)?;
    if !conditions::lengths_hold(s, lengths) {
        return Err(Refusal::Buffers);
    }
    Ok(())
}

// Tells whether 4 applies because of `head` or `passed`.
#[tactic(auto, unfolding(engine::specs::Ladder::ring_unsound))]
fn ring_unsound(s: Settings, ring: Ring) -> bool
    ensures { result ≡ ring_unsound s ring }
{
    s.q <= ring.head || s.q < ring.passed
}

// Tells whether 4 applies because of a bank's numbers.
#[tactic(auto, unfolding(engine::specs::Ladder::tracker_unsound))]
fn tracker_unsound(s: Settings, spill: u32, acts: u32, counts: &[u32]) -> bool
    ensures { result ≡ tracker_unsound s spill acts counts.now }
{
    s.l < acts || acts < spill || s.a <= spill || scan::any_above(counts, acts)
}

// Tells whether 4 applies because of the numbers of some bank from the second on. With one bank, the usual case, it
// does not. (Kept: B's range stands in contracts here and in `banks`, since `Settings` is C's struct and holds any numbers.)
#[tactic(auto, unfolding(crate::specs::Stages::others_unsound))]
pub fn others_unsound(s: Settings, control: Control, counts: &[u32]) -> bool
    requires { (1 ≤ s.b) × (s.b ≤ most_banks) × (length counts.now ≡ s.b * s.k) }
    ensures { result ≡ others_unsound s control.spill control.acts counts.now }
{
    let k = s.k as usize;
    (1..s.b as usize).any(|bank| {
        let from = bank * k;
        tracker_unsound(
            s,
            control.spill[bank],
            control.acts[bank],
            &counts[from..from + k],
        )
    })
}

// Tells whether 4 applies because of `head`, `passed` or the first bank. spill, acts: of the first bank.
#[tactic(auto, unfolding(crate::specs::Stages::first_unsound))]
pub fn first_unsound(s: Settings, ring: Ring, spill: u32, acts: u32, counts: &[u32]) -> bool
    requires { s.k ≤ length counts.now }
    ensures { result ≡ first_unsound s ring spill acts counts.now }
{
    let k = s.k as usize;
    ring_unsound(s, ring) || tracker_unsound(s, spill, acts, &counts[..k])
}

// Tells whether 4 applies.
#[tactic(auto, using(crate::proofs::Stages::control_parts))]
fn control_unsound(s: Settings, control: Control, counts: &[u32]) -> bool
    requires { (1 ≤ s.b) × (s.b ≤ most_banks) × (length counts.now ≡ s.b * s.k) }
    ensures { result ≡ control_unsound s control counts.now }
{
    let ring = Ring {
        head: control.head,
        passed: control.passed,
    };
    first_unsound(s, ring, control.spill[0], control.acts[0], counts)
        || others_unsound(s, control, counts)
}

// Refuses with the first of 1 to 4 that applies: what a tick has to pass, and every call but set-up. It takes the record of 136
// bytes, which goes through memory where this is not inlined.
#[tactic(auto, using(crate::proofs::Rules::rungs, crate::proofs::Stages::fit_counts), unfolding(engine::specs::Ladder::control_number))]
#[inline(always)]
pub fn check_control(
    s: Settings,
    lengths: Lengths,
    control: Control,
    counts: &[u32],
) -> Result<(), Refusal>
    requires { length counts.now ≡ lengths.counts }
    ensures { number_in result ≡ control_number s lengths control counts.now }
{
    check_fit(s, lengths)?;
    if control_unsound(s, control, counts) {
        return Err(Refusal::Control);
    }
    Ok(())
}

// Returns what a read with a buffer of that length asks of a row.
pub fn read_asked(s: Settings, row: u32, count: usize) -> Asked
    ensures { result ≡ read_asked s row count }
{
    Asked {
        row,
        off: count != (s.w as usize),
    }
}

// Tells whether 6 applies to a write of so many bytes from that column on. The sum of the two is not formed.
fn write_off(s: Settings, column: usize, count: usize) -> bool
    ensures { result ≡ write_off s column count }
{
    let w = s.w as usize;
    w < column || w - column < count
}

// Returns what a write of so many bytes from that column on asks of a row.
pub fn write_asked(s: Settings, row: u32, column: usize, count: usize) -> Asked
    ensures { result ≡ write_asked s row column count }
{
    Asked {
        row,
        off: write_off(s, column, count),
    }
}

// Returns what a call that only looks at a row asks of it.
pub fn look_asked(row: u32) -> Asked
    ensures { result ≡ look_asked row }
{
    Asked { row, off: false }
}

// Returns an entry of a pointer table: empty past the table's end.
fn entry_at(table: &[u16], at: usize) -> Entry
    ensures { result.0 ≡ get_or table.now at empty }
{
    match table.get(at) {
        Some(entry) => Entry(*entry),
        None => Entry::EMPTY,
    }
}

// Returns what a row's forward entry names. (Kept as two: each takes the numbering that its table is indexed by.)
pub fn forward_of(forward: &[u16], row: u32) -> Option<Slot>
    ensures { result ≡ slot_of (get_or forward.now row empty) }
{
    entry_at(forward, row as usize).named()
}

// Returns what a slot's reverse entry names.
pub fn reverse_of(reverse: &[u16], slot: Slot) -> Option<VisibleRow>
    ensures { result ≡ row_of (get_or reverse.now slot.0 empty) }
{
    entry_at(reverse, slot.0 as usize).named()
}

// Tells whether an entry of one table is empty, or below `limit` and `own` is what the other table has for it.
#[tactic(auto, unfolding(engine::specs::Ladder::points_back))]
fn points_back(entry: Entry, limit: u32, other: &[u16], own: u16) -> bool
    ensures { result ≡ points_back entry.0 limit other.now own }
{
    entry == Entry::EMPTY
        || (u32::from(entry.0) < limit && entry_at(other, usize::from(entry.0)).0 == own)
}

// Tells whether 7 applies because of the pointers of a slot that is a destination.
#[tactic(auto, unfolding(engine::specs::Ladder::destination_unsound))]
pub fn destination_unsound(s: Settings, d: Slot, forward: &[u16], reverse: &[u16]) -> bool
    ensures { result ≡ destination_unsound s (tables_in forward reverse) d.0 }
{
    let entry = entry_at(reverse, d.0 as usize);
    !points_back(entry, s.n, forward, d.0)
}

// Refuses with the first of 5, 6 and 7 (row's pointers) that applies.
#[tactic(auto, using(crate::proofs::Rules::rungs), unfolding(engine::specs::Ladder::row_number, engine::specs::Ladder::row_unsound))]
pub fn check_row(s: Settings, asked: Asked, forward: &[u16], reverse: &[u16]) -> Result<(), Refusal>
    requires { s.n ≤ 60000 }
    ensures { number_in result ≡ row_number s (tables_in forward reverse) asked }
{
    if s.n <= asked.row {
        return Err(Refusal::Row);
    }
    if asked.off {
        return Err(Refusal::Span);
    }
    let entry = entry_at(forward, asked.row as usize);
    if !points_back(entry, s.q, reverse, asked.row as u16) {
        return Err(Refusal::Pointers);
    }
    Ok(())
}
