// Document 01, 'Sizing': the least quarantine size and the most activations in a refresh window. Times are in whole
// nanoseconds. Every function answers for any argument.
#![tactic(auto)]

ghost use Rattle.std.specs.Prelude.{◌≡◌};
ghost use Rattle.sizing.specs.Sums.{size_ranges_hold, least_size, activation_ranges_hold, most_activations};

use refusals::Refusal;

// What the least quarantine size depends on.
#[derive(Clone, Copy)]
pub struct SizeTimes {
    // refresh window
    pub trefw: u64,
    // row cycle
    pub trc: u64,
    // time to move one row
    pub tmov: u64,
    // banks (B)
    pub banks: u64,
    // threshold (A)
    pub threshold: u64,
}

// What the most activations of a bank in a refresh window depend on.
#[derive(Clone, Copy)]
pub struct RefreshTimes {
    // refresh window
    pub trefw: u64,
    // row cycle
    pub trc: u64,
    // refresh interval
    pub trefi: u64,
    // time that one refresh takes
    pub trfc: u64,
}

impl SizeTimes {
    // Each argument is in its range.
    #[tactic(auto, unfolding(crate::specs::Sums::size_ranges_hold))]
    fn ranges_hold(self) -> bool
        ensures { result ≡ size_ranges_hold self }
    {
        (1..=1_000_000_000).contains(&self.trefw)
            && (1..=10_000).contains(&self.trc)
            && (1..=1_000_000).contains(&self.tmov)
            && (1..=1024).contains(&self.banks)
            && (1..=65_535).contains(&self.threshold)
    }
}

impl RefreshTimes {
    // Each argument is in its range.
    #[tactic(auto, unfolding(crate::specs::Sums::activation_ranges_hold))]
    fn ranges_hold(self) -> bool
        ensures { result ≡ activation_ranges_hold self }
    {
        (1..=1_000_000_000).contains(&self.trefw)
            && (1..=10_000).contains(&self.trc)
            && (1..=1_000_000).contains(&self.trefi)
            && self.trfc < self.trefi
    }
}

// The least quarantine size, in slots: document 000, equation 3.
#[tactic(auto, unfolding(crate::specs::Sums::least_size))]
pub fn least_size(t: SizeTimes) -> Result<u64, Refusal>
    ensures { result ≡ least_size t }
{
    if !t.ranges_hold() {
        return Err(Refusal::Settings);
    }
    let over = t.trefw * t.banks;
    let under = t.threshold * t.trc + t.banks * t.tmov;
    Ok(over.div_ceil(under))
}

// The most activations of a bank in a refresh window, less the time that refreshes take.
#[tactic(auto, unfolding(crate::specs::Sums::most_activations))]
pub fn most_activations(t: RefreshTimes) -> Result<u64, Refusal>
    ensures { result ≡ most_activations t }
{
    if !t.ranges_hold() {
        return Err(Refusal::Settings);
    }
    let over = t.trefw * (t.trefi - t.trfc);
    let under = t.trefi * t.trc;
    Ok(over / under)
}
