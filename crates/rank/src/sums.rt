// The two sizing sums.
ghost use Rattle.std.specs.Prelude.{◌≡◌};
ghost use Rattle.sizing.specs.declared.SizeTimes.{SizeTimes as SizeTimes-of};
ghost use Rattle.sizing.specs.declared.RefreshTimes.{RefreshTimes as RefreshTimes-of};
ghost use Rattle.sizing.specs.Sums.{least_size, most_activations};
ghost use Rattle.figures.specs.Sum.{sum_of};

use figures::Sum;
use sizing::{RefreshTimes, SizeTimes};

// Returns the least quarantine size, in slots; times are in nanoseconds.
pub fn aqua_least_size(trefw: u64, trc: u64, tmov: u64, banks: u64, threshold: u64) -> Sum
    ensures { let times : SizeTimes-of =
        record { trefw = trefw; trc = trc; tmov = tmov; banks = banks; threshold = threshold } in
        result ≡ sum_of (least_size times) }
{
    Sum::from(sizing::least_size(SizeTimes {
        trefw,
        trc,
        tmov,
        banks,
        threshold,
    }))
}

// Returns the most activations of a bank in a refresh window; times are in nanoseconds.
pub fn aqua_most_activations(trefw: u64, trc: u64, trefi: u64, trfc: u64) -> Sum
    ensures { let times : RefreshTimes-of = record { trefw = trefw; trc = trc; trefi = trefi; trfc = trfc } in
        result ≡ sum_of (most_activations times) }
{
    Sum::from(sizing::most_activations(RefreshTimes {
        trefw,
        trc,
        trefi,
        trfc,
    }))
}
