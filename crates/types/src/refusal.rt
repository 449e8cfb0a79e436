// Why a call is refused: the rows of the table of replies.
ghost use Rattle.std.specs.Prelude.{◌≡◌};
ghost use Rattle.types.specs.Replies.{refusal_number};

use std::error::Error;
use std::fmt;

#[derive(Clone, Copy, Debug, PartialEq, Eq)]
pub enum Refusal {
    Sides,
    Lengths,
    Marks,
    Decibels,
    Tiles,
    Gamma,
}

// Its number in the table.
impl From<Refusal> for u8 {
    ghost from_gives = { λ refusal n. n ≡ refusal_number refusal };

    #[tactic(auto, unfolding(crate::specs::Replies::refusal_number))]
    fn from(refusal: Refusal) -> u8 {
        match refusal {
            Refusal::Sides => 1,
            Refusal::Lengths => 2,
            Refusal::Marks => 3,
            Refusal::Decibels => 4,
            Refusal::Tiles => 5,
            Refusal::Gamma => 6,
        }
    }
}

impl fmt::Display for Refusal {
    fn fmt<W: fmt::Write>(&self, f: &mut fmt::Formatter<W>) -> fmt::Result {
        let number = u8::from(*self);
        write!(f, "refused {number}")
    }
}

impl Error for Refusal {}
