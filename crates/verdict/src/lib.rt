// What is decided of an access that 1 to 7 let pass: 8, whether it moves its row (step 4), and then 9 and the destination's 7.
// Nothing lent is written here.
#![tactic(auto)]

ghost use Rattle.std.specs.Prelude.{◌≡◌, ◌<◌, ◌≤◌, eqb};
ghost use Rattle.refusals.specs.Refusals.{numbered};
ghost use Rattle.geometry.specs.Numbering.{slot};
ghost use Rattle.tracking.specs.Track.{is_due};
ghost use Rattle.engine.specs.State.{tables_in};
ghost use Rattle.engine.specs.Round.{destination_from};
ghost use Rattle.verdict.specs.Verdicts.{move_to, quarantine_verdict, Judgeable};
ghost use Rattle.verdict.specs.Verdicts.{skipped_for, Decidable};

use banks::Bank;
use engine::Move;
use geometry::{PhysicalRow, Ring, Settings, Slot, VisibleRow};
use refusals::Refusal;
use tracker::Update;

// What an access found before the bytes.
#[derive(Clone, Copy)]
pub struct Found {
    pub row: VisibleRow,
    // the slot that the row's forward entry names, and the row's place (step 1)
    pub entry: Option<Slot>,
    pub place: PhysicalRow,
    // the place's bank
    pub bank: Bank,
    // what step 2 changes, if anything
    pub update: Option<Update>,
}

// Where a row that is quarantined goes.
#[derive(Clone, Copy)]
pub struct Destination {
    pub slot: Slot,
    // the row that the slot holds
    pub held: Option<VisibleRow>,
    // by how much `passed` rises
    pub rise: u32,
}

impl From<Destination> for Move {
    ghost from_gives = { λ d moved. moved ≡ move_to d };

    fn from(d: Destination) -> Move {
        match d.held {
            None => Move::ToSlot(d.slot),
            Some(row) => Move::OverSlot(d.slot, row),
        }
    }
}

// Tells whether 8 applies, where the place's bank has had so many accepted accesses.
pub fn is_full(s: Settings, acts: u32) -> bool
    ensures { result ≡ eqb acts s.l }
{
    acts == s.l
}

// Returns the slot after so many slots from `head` on, round Q.
#[tactic(auto, unfolding(engine::specs::Round::destination_from))]
fn slot_from(s: Settings, head: u32, over: u32) -> Slot
    requires { (head < s.q) × (over < s.q) × (s.q ≤ 5500) }
    ensures { result ≡ slot (destination_from s head over) }
{
    Slot(((head + over) % s.q) as u16)
}

// Judges 9 and the destination's 7 for a row to be quarantined where the head skips so many slots, and returns where it
// goes where neither applies.
#[tactic(auto, using(crate::proofs::Judged::judged), unfolding(engine::specs::Round::destination_from))]
pub fn judge(
    s: Settings,
    ring: Ring,
    over: u32,
    forward: &[u16],
    reverse: &[u16],
) -> Result<Destination, Refusal>
    requires { Judgeable s ring over }
    ensures { numbered result ≡ quarantine_verdict s ring (tables_in forward reverse) over }
{
    if s.q <= ring.passed + over {
        return Err(Refusal::Quarantine);
    }
    let d = slot_from(s, ring.head, over);
    if ladder::destination_unsound(s, d, forward, reverse) {
        return Err(Refusal::Pointers);
    }
    Ok(Destination {
        slot: d,
        held: ladder::reverse_of(reverse, d),
        rise: over + 1,
    })
}

// Decides of a row that is to be quarantined: its destination is searched, and then judged. entry: what the row's forward entry
// names; changed: the entry that step 2 changes.
#[tactic(auto, using(crate::proofs::Judged::over_in, crate::proofs::Judged::verdict_of_all))]
pub fn decide(
    s: Settings,
    ring: Ring,
    entry: Option<Slot>,
    changed: usize,
    forward: &[u16],
    reverse: &[u16],
    rows: &[u16],
    counts: &[u32],
) -> Result<Destination, Refusal>
    requires { Decidable s ring changed rows.now counts.now }
    ensures { let over = skipped_for s ring entry changed rows.now counts.now in
        numbered result ≡ quarantine_verdict s ring (tables_in forward reverse) over }
{
    let over = seek::skipped(s, ring, entry, changed, rows, counts);
    judge(s, ring, over, forward, reverse)
}

// Tells whether an estimate calls for a move: there is one, and it is a multiple of A. An estimate below A, 0 for none
// among them, is judged without a division, and so is A itself, which in a history is the estimate of every row that is
// due.
#[tactic(auto, using(tracking::proofs::Due::due_below))]
pub fn is_due(s: Settings, estimate: u32) -> bool
    requires { 1 ≤ s.a }
    ensures { result ≡ is_due s.a estimate }
{
    if estimate < s.a {
        return false;
    }
    if estimate == s.a {
        return true;
    }
    estimate % s.a == 0
}
