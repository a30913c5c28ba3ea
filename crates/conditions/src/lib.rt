// The conditions of refusals 1, 2 and 3. Every function answers for any argument.
#![tactic(auto)]

ghost use Rattle.std.specs.Prelude.{◌≡◌};
ghost use Rattle.basics.specs.Ranges.{in_range};
ghost use Rattle.conditions.specs.Conditions.{ranges_hold, limit_holds, store_holds, lengths_hold};

use geometry::{Lengths, Settings};

// The setting is in the range low to high, both included. Seven `contains` in one function are more than the prover searches.
fn in_range(low: u32, high: u32, setting: u32) -> bool
    ensures { result ≡ in_range low high setting }
{
    (low..=high).contains(&setting)
}

// Condition 1: each setting is in its range.
#[tactic(auto, unfolding(crate::specs::Conditions::ranges_hold))]
pub fn ranges_hold(s: Settings) -> bool
    ensures { result ≡ ranges_hold s }
{
    in_range(1, 60_000, s.n)
        & in_range(2, 5500, s.q)
        & in_range(1, 8192, s.w)
        & in_range(1, 4096, s.k)
        & in_range(1, 65_535, s.a)
        & in_range(1, 1_360_000, s.l)
        & in_range(1, 16, s.b)
}

// Condition 2: L is less than A × (K + 1). The product of any two 32-bit numbers, and one more, fits 64 bits.
#[tactic(auto, unfolding(crate::specs::Conditions::limit_holds))]
pub fn limit_holds(s: Settings) -> bool
    ensures { result ≡ limit_holds s }
{
    (s.l as u64) < (s.a as u64) * ((s.k as u64) + 1)
}

// The store has (N + Q) × W bytes. N × W and Q × W fit 64 bits each; their sum may not, so it is not formed.
#[tactic(auto, unfolding(crate::specs::Conditions::store_holds))]
pub fn store_holds(s: Settings, store: usize) -> bool
    ensures { result ≡ store_holds s store }
{
    let homes = (s.n as usize) * (s.w as usize);
    let slots = (s.q as usize) * (s.w as usize);
    store.checked_sub(homes) == Some(slots)
}

// Condition 3: each table, tracker part and store has exactly its length. The store's may not fit 64 bits, so there is no
// `Lengths` of what is wanted, to compare with as a whole.
#[tactic(auto, unfolding(crate::specs::Conditions::lengths_hold))]
pub fn lengths_hold(s: Settings, lengths: Lengths) -> bool
    ensures { result ≡ lengths_hold s lengths }
{
    let entries = (s.b as usize) * (s.k as usize);
    store_holds(s, lengths.store)
        && lengths.forward == (s.n as usize)
        && lengths.reverse == (s.q as usize)
        && lengths.rows == entries
        && lengths.counts == entries
}
