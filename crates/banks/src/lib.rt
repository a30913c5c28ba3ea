// The banks of a rank: which bank a physical row belongs to, which entries of the tracker's tables are a bank's, and a
// bank's numbers in the control record (document 02, Ask 5).
#![tactic(auto)]

ghost use Rattle.std.specs.Prelude.{◌≡◌, ◌≤◌, ◌<◌, get_or, set};
ghost use Rattle.banks.specs.Banks.{most_banks, bank_of, bank_with, with_bank};

use geometry::{Control, PhysicalRow, Ring, Settings};

// A bank, with its numbers in the control record.
#[derive(Clone, Copy)]
pub struct Bank {
    // which one it is
    pub index: usize,
    // its tracker's spillover count
    pub spill: u32,
    // its accepted accesses this epoch
    pub acts: u32,
}

// Returns the bank of a physical row. With one bank, the usual case, there is no division.
#[tactic(auto, unfolding(crate::specs::Banks::bank_of))]
pub fn bank_of(s: Settings, row: PhysicalRow) -> usize
    requires { (1 ≤ s.b) × (row.0 < 65536) }
    ensures { result ≡ bank_of s row.0 }
{
    if s.b <= 1 {
        return 0;
    }
    ((row.0 as u32) % s.b) as usize
}

// Returns a bank's number. The first two have an index that the compiler knows, so that it needs no copy of the others for
// them: an access with one bank pays for nothing else. (The copy stands in the last arm, or it is made for every bank: by
// up to 5 ns of 30 that step 2 takes at two banks of 16 entries.)
fn number_of(numbers: [u32; 16], bank: usize) -> u32
    requires { bank < most_banks }
    ensures { result ≡ get_or numbers bank 0 }
{
    match bank {
        0 => numbers[0],
        1 => numbers[1],
        _ => {
            let all = numbers;
            all[bank]
        }
    }
}

// Returns the numbers with another one of a bank.
fn with_number(mut numbers: [u32; 16], bank: usize, number: u32) -> [u32; 16]
    requires { bank < most_banks }
    ensures { result ≡ set numbers bank number }
{
    numbers[bank] = number;
    numbers
}

// Returns the bank of a physical row, with its numbers.
#[tactic(auto, unfolding(crate::specs::Banks::bank_of))]
pub fn bank_at(s: Settings, control: Control, row: PhysicalRow) -> Bank
    requires { (1 ≤ s.b) × (s.b ≤ most_banks) × (row.0 < 65536) }
    ensures { result ≡ bank_with control (bank_of s row.0) }
{
    let index = bank_of(s, row);
    Bank {
        index,
        spill: number_of(control.spill, index),
        acts: number_of(control.acts, index),
    }
}

// Returns the control record with another ring, and other numbers of a bank.
pub fn with_bank(control: Control, ring: Ring, bank: Bank) -> Control
    requires { bank.index < most_banks }
    ensures { result ≡ with_bank control ring bank }
{
    Control {
        head: ring.head,
        passed: ring.passed,
        spill: with_number(control.spill, bank.index, bank.spill),
        acts: with_number(control.acts, bank.index, bank.acts),
    }
}
