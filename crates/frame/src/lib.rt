// The heading of a frame: whose message it is of, how many frames that has, and which of them it is.
#![tactic(auto)]

ghost use Rattle.std.specs.Prelude.{◌≡◌};
ghost use Rattle.frame.specs.Heading.{told, heading_of};

use refusal::Refusal;

// How many frames a message has, from 1 to 63.
#[derive(Clone, Copy)]
pub struct Total(pub u8);

// Which of them a frame is, from 0 to 62.
#[derive(Clone, Copy)]
pub struct Number(pub u8);

// What a frame says of itself: the pair that it is of, how many frames there are, and which of them it is.
#[derive(Clone, Copy)]
pub struct Heading {
    pub level: u8,
    pub version: u8,
    pub total: Total,
    pub number: Number,
}

// What the frame's heading says, where it is accepted.
pub fn heading_of(frame: &[u8]) -> Result<Heading, Refusal>
    ensures { told result ≡ heading_of frame.now }
{
    if frame.len() != 8 {
        return Err(Refusal::Length);
    }
    if frame[2] != 0xB0 || frame[3] / 16 != 0 {
        return Err(Refusal::FixedBits);
    }
    let level = frame[0] / 32;
    if level == 0 || level == 7 {
        return Err(Refusal::Level);
    }
    let total = Total(frame[1] / 4);
    let number = Number(frame[1] % 4 * 16 + frame[3] % 16);
    if total.0 <= number.0 {
        return Err(Refusal::Numbering);
    }
    Ok(Heading {
        level,
        version: frame[0] % 32,
        total,
        number,
    })
}
