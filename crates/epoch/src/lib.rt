// What begins an epoch: set-up and tick, with the control record by value: a call answers the record after it. Each answers
// for any settings and lent memory; where it refuses, nothing lent is written. The parameters are those of the C functions.
#![tactic(auto)]

ghost use Rattle.std.specs.Prelude.{◌≡◌, ◌≤◌};
ghost use Rattle.refusals.specs.Refusals.{number_in};
ghost use Rattle.banks.specs.Banks.{most_banks};
ghost use Rattle.engine.specs.State.{state_of};
ghost use Rattle.engine.specs.Calls.{noted_of, set_up, zero_below, tick};
ghost use Rattle.epoch.specs.After.{control_after};

use geometry::{Control, Entry, Settings};
use refusals::Refusal;

// Set-up: makes everything lent but the store as new. Of the record before it the promise alone speaks.
#[tactic(auto, using(crate::proofs::Serves::set_ups))]
pub fn set_up(
    control: Control,
    s: Settings,
    store: &[u8],
    forward: &mut [u16],
    reverse: &mut [u16],
    rows: &mut [u16],
    counts: &mut [u32],
) -> Result<Control, Refusal>
    ensures { let before = state_of store.now forward.old reverse.old rows.old counts.old control in
        let after = state_of store.now forward.new reverse.new rows.new counts.new (control_after control result) in
        noted_of after (number_in result) ≡ set_up s before }
{
    let lengths = geometry::lengths_of(store, forward, reverse, rows, counts);
    ladder::check_fit(s, lengths)?;
    forward.fill(Entry::EMPTY.0);
    reverse.fill(Entry::EMPTY.0);
    tracker::reset(rows, counts);
    Ok(geometry::NEW)
}

// Returns the numbers of the banks with those of the first b banks 0.
#[tactic(auto, unfolding(engine::specs::Calls::zero_below))]
fn zero_below(mut numbers: [u32; 16], b: usize) -> [u32; 16]
    requires { b ≤ most_banks }
    ensures { result ≡ zero_below b numbers }
{
    numbers[..b].fill(0);
    numbers
}

// Tick: makes the trackers as new.
#[tactic(auto, using(crate::proofs::Serves::ticks))]
pub fn tick(
    control: Control,
    s: Settings,
    store: &[u8],
    forward: &[u16],
    reverse: &[u16],
    rows: &mut [u16],
    counts: &mut [u32],
) -> Result<Control, Refusal>
    ensures { let before = state_of store.now forward.now reverse.now rows.old counts.old control in
        let after = state_of store.now forward.now reverse.now rows.new counts.new (control_after control result) in
        noted_of after (number_in result) ≡ tick s before }
{
    let lengths = geometry::lengths_of(store, forward, reverse, rows, counts);
    ladder::check_control(s, lengths, control, counts)?;
    tracker::reset(rows, counts);
    let b = s.b as usize;
    Ok(Control {
        head: control.head,
        passed: 0,
        spill: zero_below(control.spill, b),
        acts: zero_below(control.acts, b),
    })
}
