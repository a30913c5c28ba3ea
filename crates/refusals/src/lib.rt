// The refusals: why a call stops, and the number that document 01 gives it.
#![tactic(auto)]

ghost use Rattle.std.specs.Prelude.{◌≡◌};
ghost use Rattle.refusals.specs.Refusals.{refusal_number};

// The rows of document 01's table 'Where each call can stop', in its order.
#[derive(Clone, Copy, Debug, PartialEq, Eq)]
pub enum Refusal {
    Settings,
    Together,
    Buffers,
    Control,
    Row,
    Span,
    Pointers,
    Epoch,
    Quarantine,
}

impl Refusal {
    // Returns the number of a refusal.
    pub fn number(self) -> u32
        ensures { result ≡ refusal_number self }
    {
        match self {
            Refusal::Settings => 1,
            Refusal::Together => 2,
            Refusal::Buffers => 3,
            Refusal::Control => 4,
            Refusal::Row => 5,
            Refusal::Span => 6,
            Refusal::Pointers => 7,
            Refusal::Epoch => 8,
            Refusal::Quarantine => 9,
        }
    }
}
