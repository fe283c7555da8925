// Why a function gives nothing back: the refusals of the papers, each with its listed number.
#![tactic(auto)]

ghost use Rattle.std.specs.Prelude.{Some, ◌≡◌, decimal};
ghost use Rattle.refusal.specs.Refusal.{number_of};

use std::error::Error;
use std::fmt;

// A refusal of a function that gives a value back where nothing is wrong.
#[derive(Clone, Copy, Debug, PartialEq, Eq)]
pub enum Refusal {
    // The lent output is too short.
    Room,
    // The fixed bits of block 2 are wrong.
    FixedBits,
    // A level is reserved.
    Level,
    // A total is 0, or a number is not below its total.
    Numbering,
    // A frame contradicts what is held.
    Contradiction,
    // A pair is not held, and no place is free.
    Place,
    // A pair is not held, or not whole.
    Unheld,
    // A packet is not of the size that it says, or of none that there is.
    PacketSize,
    // A type is none that is carried.
    Type,
    // A reserved bit is 0.
    ReservedBit,
    // A digit is above 9.
    Digit,
    // A length is wrong for its kind.
    Length,
    // A field is outside its list or range, or a content is not of the type named.
    Range,
    // A record of state is none that could have come about.
    State,
    // A text's last byte begins a character of two.
    LoneByte,
    // A text is longer than nine parts.
    Parts,
    // A message number would run past 9999.
    MessageNumber,
    // Packets are not the parts of one story.
    Story,
    // A shelf is not one of whole records, or what is lent beside it is not of its size.
    Shelf,
    // A record is not as a record is.
    Record,
    // A shelf is full.
    FullShelf,
    // A symbol is not of 32 numbers.
    Symbol,
    // A number is no sample.
    Sample,
    // A tag names no command.
    Tag,
}

impl Refusal {
    // The number that the papers list.
    pub fn number(self) -> u8
        ensures { result ≡ number_of self }
    {
        match self {
            Refusal::Room => 10,
            Refusal::FixedBits => 12,
            Refusal::Level => 13,
            Refusal::Numbering => 14,
            Refusal::Contradiction => 15,
            Refusal::Place => 16,
            Refusal::Unheld => 18,
            Refusal::PacketSize => 20,
            Refusal::Type => 23,
            Refusal::ReservedBit => 24,
            Refusal::Digit => 25,
            Refusal::Length => 26,
            Refusal::Range => 27,
            Refusal::State => 28,
            Refusal::LoneByte => 30,
            Refusal::Parts => 31,
            Refusal::MessageNumber => 32,
            Refusal::Story => 33,
            Refusal::Shelf => 34,
            Refusal::Record => 35,
            Refusal::FullShelf => 36,
            Refusal::Symbol => 37,
            Refusal::Sample => 38,
            Refusal::Tag => 39,
        }
    }
}

// Its number in decimal digits.
impl fmt::Display for Refusal {
    ghost output = { λ refusal. Some (decimal (number_of refusal)) };

    fn fmt<W: fmt::Write>(&self, f: &mut fmt::Formatter<W>) -> fmt::Result {
        write!(f, "{}", self.number())
    }
}

impl Error for Refusal {}
