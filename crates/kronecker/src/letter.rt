// How an expansion takes an input, told by a letter: S, P or N. A record has the letters by their numbers.
ghost use Rattle.std.specs.Prelude.{◌≡◌};
ghost use Rattle.kronecker.specs.Letters.{letter_number, letter_of};

// The Shannon way, or either Davio way.
#[derive(Clone, Copy, Debug, PartialEq, Eq)]
pub enum Letter {
    Shannon,
    Positive,
    Negative,
}

impl Letter {
    // The number of the letter: S is 0, P is 1, N is 2.
    #[tactic(auto, unfolding(crate::specs::Letters::letter_number))]
    pub fn number(self) -> u8
        ensures { result ≡ letter_number self }
    {
        match self {
            Letter::Shannon => 0,
            Letter::Positive => 1,
            Letter::Negative => 2,
        }
    }
}

// The letter that a number stands for. Every number above 1 is read as N.
impl From<u8> for Letter {
    ghost from_gives = { λ number letter. letter ≡ letter_of number };

    #[tactic(auto, unfolding(crate::specs::Letters::letter_of))]
    fn from(number: u8) -> Letter {
        match number {
            0 => Letter::Shannon,
            1 => Letter::Positive,
            _ => Letter::Negative,
        }
    }
}
