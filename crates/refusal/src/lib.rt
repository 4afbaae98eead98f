// Why a file, a plan or an argument is refused, by name and number.
#![tactic(auto)]

ghost use Rattle.std.specs.Prelude.{◌≡◌, Some};
ghost use Rattle.refusal.specs.Refusals.{number_of, words_of};

use std::error::Error;
use std::fmt;

#[derive(Clone, Copy, Debug, PartialEq, Eq, PartialOrd, Ord, Hash)]
pub enum Refusal {
    EndsEarly = 1,
    WrongMark = 2,
    WrongVersion = 3,
    WrongSize = 4,
    WrongSlot = 5,
    WrongRule = 6,
    BytesLeft = 7,
    WrongArguments = 8,
    BeyondLimit = 9,
    WrongStart = 10,
    ShortBuffer = 11,
}

impl Refusal {
    pub fn number(self) -> u32
        ensures { result ≡ number_of self }
    {
        self as u32
    }
}

impl fmt::Display for Refusal {
    ghost output = { λ r. Some (words_of r) };

    fn fmt<W: fmt::Write>(&self, f: &mut fmt::Formatter<W>) -> fmt::Result {
        write!(f, "refused {}", self.number())
    }
}

impl Error for Refusal {}
