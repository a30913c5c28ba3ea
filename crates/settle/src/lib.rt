// What a move writes (step 4): the copies, the pointer tables, `head` and `passed`.
// The store and the pointer tables travel together and stay parameters: each function over a struct of the three `&mut` slices
// would have to say of each slice that it is still the same one, beside what it leaves there.
#![tactic(auto)]

ghost use Rattle.std.specs.Prelude.{◌≡◌, ◌<◌, length, IfSome};
ghost use Rattle.engine.specs.State.{storage_of};
ghost use Rattle.engine.specs.Steps.{relocated};
ghost use Rattle.verdict.specs.Verdicts.{move_to};
ghost use Rattle.settle.specs.Settling.{store_sent, forward_sent, reverse_left, Sendable, Movable};

use geometry::{Entry, Ring, Settings, Slot, VisibleRow};
use verdict::{Destination, Found};

// Empties the reverse entry of the slot that a row leaves, if it was in one.
fn leave(reverse: &mut [u16], entry: Option<Slot>)
    requires { IfSome entry (λ slot. slot.0 < length reverse.old) }
    ensures { reverse.new ≡ reverse_left entry reverse.old }
{
    if let Some(slot) = entry {
        reverse[slot.0 as usize] = Entry::EMPTY.0;
    }
}

// Copies the row that a slot holds, if it holds one, to its home, and empties its forward entry.
#[tactic(auto, using(crate::proofs::Settles::row_inside))]
fn send_home(
    s: Settings,
    slot: Slot,
    held: Option<VisibleRow>,
    store: &mut [u8],
    forward: &mut [u16],
)
    requires { Sendable s slot held store.old forward.old }
    ensures store { store.new ≡ store_sent s slot held store.old }
    ensures forward { forward.new ≡ forward_sent held forward.old }
{
    if let Some(row) = held {
        let home = geometry::home(row);
        row_bytes::copy_row(store, s.w as usize, geometry::slot_row(s, slot), home);
        forward[row.0 as usize] = Entry::EMPTY.0;
    }
}

// Moves the row that was found from its place to its destination.
#[tactic(auto, using(crate::proofs::Settles::row_inside, crate::proofs::Settles::sent_long, crate::proofs::Settles::moved_is))]
pub fn relocate(
    s: Settings,
    ring: Ring,
    f: Found,
    d: Destination,
    store: &mut [u8],
    forward: &mut [u16],
    reverse: &mut [u16],
) -> Ring
    requires { Movable s f d (storage_of store.old forward.old reverse.old ring) }
    ensures { let before = storage_of store.old forward.old reverse.old ring in
        storage_of store.new forward.new reverse.new result ≡ relocated s f.row.0 f.place.0 (move_to d) before }
{
    send_home(s, d.slot, d.held, store, forward);
    row_bytes::copy_row(store, s.w as usize, f.place, geometry::slot_row(s, d.slot));
    leave(reverse, f.entry);
    reverse[d.slot.0 as usize] = Entry::of(f.row).0;
    forward[f.row.0 as usize] = Entry::of(d.slot).0;
    Ring {
        head: ((d.slot.0 as u32) + 1) % s.q,
        passed: ring.passed + d.rise,
    }
}
