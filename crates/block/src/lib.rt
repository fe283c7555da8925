// Blocks of 26 bits: sixteen of information, then ten of check.
#![tactic(auto)]

ghost use Rattle.std.specs.Prelude.{◌≡◌, ◌*◌, ◌^◌};
ghost use Rattle.block.specs.Block.{syndrome, check_word, offset_of};
ghost use Rattle.block.specs.Letters.{offset_of_any, likely_of, letter_with, letter_of, place_of};

// Which of a frame's four blocks: the first is A.
#[derive(Clone, Copy)]
pub enum Letter {
    A,
    B,
    C,
    D,
}

// The offset word of a letter.
pub fn offset_of(letter: Letter) -> u16
    ensures { result ≡ offset_of letter }
{
    match letter {
        Letter::A => 0x0FC,
        Letter::B => 0x198,
        Letter::C => 0x168,
        Letter::D => 0x1B4,
    }
}

// x^10 + x^8 + x^7 + x^5 + x^4 + x^3 + 1, a bit a term.
const GENERATOR: u16 = 0b101_1011_1001;

// The check bits of an information word, with an offset added: the long division of information times x^10 as on paper.
// docs/LONG-DIVISION.md works one through.
pub fn check_word(info: u16, offset: u16) -> u16
    ensures { result ≡ check_word info offset }
{
    let dividend = info as u32 * 1024;
    let mut rest: u16 = 0;
    for place in (0..26u32).rev() {
        let brought_down = (dividend >> place) % 2;
        rest = rest * 2 + brought_down as u16;
        if rest >= 1024 {
            rest = rest ^ GENERATOR;
        }
    }
    rest ^ offset
}

// The remainder of an information word, fast, with no loop, since the search asks for it at many places:
// q is the quotient, a sum of shifts of the information, and what q times the generator has below x^10 is the remainder.
pub fn remainder_of(info: u16) -> u16
    ensures { result ≡ syndrome (info * 2 ^ 10) }
{
    let p = info as u32;
    let h = p >> 2;
    let u = h ^ (h >> 1);
    let a = u ^ (u >> 2) ^ (h >> 4);
    let q = p ^ a ^ (a >> 9);
    let w = q ^ (q << 1);
    ((q ^ (w << 3) ^ (q << 5) ^ (w << 7)) % 1024) as u16
}

// The five letters that the standard knows. A frame of ours has no C'.
#[derive(Clone, Copy)]
pub enum AnyLetter {
    A,
    B,
    C,
    CPrime,
    D,
}

// The offset word of any letter.
fn offset_of_any(letter: AnyLetter) -> u16
    ensures { result ≡ offset_of_any letter }
{
    match letter {
        AnyLetter::A => offset_of(Letter::A),
        AnyLetter::B => offset_of(Letter::B),
        AnyLetter::C => offset_of(Letter::C),
        AnyLetter::CPrime => 0x350,
        AnyLetter::D => offset_of(Letter::D),
    }
}

// The only letter that the offset word can have: three bits tell the five apart, so that one comparison is left.
fn likely(offset: u16) -> AnyLetter
    ensures { result ≡ likely_of offset }
{
    // an arm for each number, so that the letter is looked up and no jump is guessed
    match offset / 32 % 8 {
        0 => AnyLetter::A,
        1 => AnyLetter::A,
        2 => AnyLetter::CPrime,
        3 => AnyLetter::C,
        4 => AnyLetter::B,
        5 => AnyLetter::D,
        6 => AnyLetter::A,
        _ => AnyLetter::A,
    }
}

// The letter whose offset word it is.
fn letter_with(offset: u16) -> Option<AnyLetter>
    ensures { result ≡ letter_with offset }
{
    let letter = likely(offset);
    if offset == offset_of_any(letter) {
        Some(letter)
    } else {
        None
    }
}

// Which letter's block the bits are; what has more than 26 bits is none.
pub fn letter_of(bits: u32) -> Option<AnyLetter>
    ensures { result ≡ letter_of bits }
{
    if bits < 0x400_0000 {
        let info = (bits / 1024) as u16;
        let check = (bits % 1024) as u16;
        letter_with(remainder_of(info) ^ check)
    } else {
        None
    }
}

// Which block of a frame carries the letter, 1 to 4; 5 for C', which stands in no frame of ours, and 0 for none.
pub fn place_of(letter: Option<AnyLetter>) -> u32
    ensures { result ≡ place_of letter }
{
    match letter {
        None => 0,
        Some(AnyLetter::A) => 1,
        Some(AnyLetter::B) => 2,
        Some(AnyLetter::C) => 3,
        Some(AnyLetter::D) => 4,
        Some(AnyLetter::CPrime) => 5,
    }
}
