// Document 01, 'Sizing': the table of six quarantine sizes, each with its threshold.
#![tactic(auto)]

ghost use Rattle.std.specs.Prelude.{◌≡◌};
ghost use Rattle.size_table.specs.Table.{listed_at};

// A threshold and the least quarantine size for it.
#[derive(Clone, Copy)]
pub struct SizePair {
    pub threshold: u64,
    pub size: u64,
}

// The sizes of document 000's Table III: tREFW 64,000,000, tRC 45, tmov 1,370 and 16 banks.
pub const SIZES: [SizePair; 6] = [
    SizePair {
        threshold: 1000,
        size: 15302,
    },
    SizePair {
        threshold: 500,
        size: 23053,
    },
    SizePair {
        threshold: 250,
        size: 30872,
    },
    SizePair {
        threshold: 125,
        size: 37176,
    },
    SizePair {
        threshold: 50,
        size: 42367,
    },
    SizePair {
        threshold: 1,
        size: 46620,
    },
];

// The pair at an index of the table.
#[tactic(auto, unfolding(crate::specs::Table::listed_at))]
pub fn size_at(i: usize) -> Option<SizePair>
    ensures { result ≡ listed_at i }
{
    SIZES.get(i).copied()
}
