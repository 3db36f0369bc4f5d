// Why a call is refused.
ghost use Rattle.std.specs.Prelude.{◌≡◌};
ghost use Rattle.grid.specs.Refusals.{number_of};

use std::error::Error;
use std::fmt;

#[derive(Clone, Copy, Debug, PartialEq, Eq)]
pub enum Refusal {
    // a number is larger than the sheet's limits allow
    OutOfRange,
    // a range's start is excluded
    StartExcluded,
    // a border mark is blank, or outside its kind
    BadMark,
    // a lent table is shorter than the call needs
    ShortTable,
    // the sheet has no such place
    NoSuchPlace,
    // counting onward from the last row or column passes the largest number
    PastLast,
    // a cell that a drawing asks for is not on the sheet
    OutsideShape,
    // the sheet is not open
    NotOpen,
}

impl Refusal {
    // The number by which users know this refusal; `u8::from` would not say that it is theirs.
    pub fn number(self) -> u8
        ensures { result ≡ number_of self }
    {
        match self {
            Refusal::OutOfRange => 1,
            Refusal::StartExcluded => 2,
            Refusal::BadMark => 3,
            Refusal::ShortTable => 4,
            Refusal::NoSuchPlace => 5,
            Refusal::PastLast => 6,
            Refusal::OutsideShape => 7,
            Refusal::NotOpen => 8,
        }
    }
}

// As the programs print it.
impl fmt::Display for Refusal {
    ghost use Rattle.std.specs.Prelude.{Some};
    ghost use Rattle.grid.specs.Printed.{printed_refusal};

    ghost output = { λ e. Some (printed_refusal e) };

    fn fmt<W: fmt::Write>(&self, f: &mut fmt::Formatter<W>) -> fmt::Result {
        write!(f, "refused {}", self.number())
    }
}

impl Error for Refusal {}
