// Why a line of the script is refused.
use std::fmt;
use std::num::TryFromIntError;

#[derive(Clone, Copy, Debug, PartialEq, Eq)]
pub enum Fault {
    NotUnderstood,
    NoSettings,
    NoCall,
    Values,
    Lent,
    Visible,
    TooLong,
}

impl fmt::Display for Fault {
    fn fmt<W: fmt::Write>(&self, f: &mut fmt::Formatter<W>) -> fmt::Result {
        f.write_str(match self {
            Fault::NotUnderstood => "not understood",
            Fault::NoSettings => "no settings before it",
            Fault::NoCall => "no call before it",
            Fault::Values => "no values, or too many",
            Fault::Lent => "another number of values than are lent",
            Fault::Visible => "another number of values than N rows have",
            Fault::TooLong => "the script is too long",
        })
    }
}

impl From<TryFromIntError> for Fault {
    fn from(_e: TryFromIntError) -> Fault {
        Fault::NotUnderstood
    }
}
