// A clock or a resource command of the sister band as the content of our packets of type 3 or 1, and back.
#![tactic(auto)]

ghost use Rattle.std.specs.Prelude.{◌≡◌, ◌≤◌, length};
ghost use Rattle.std.proofs.lemmas.List.Edits.{sets};
ghost use Rattle.packet.specs.Reading.{zeros};
ghost use Rattle.carry.specs.Carrying.{content_for, command_for, code_digits, digits_for, code_for};

use packet::Content;
use sister::Command;

// The content of our packets that a clock or a resource command is; raw for any other.
pub fn content_of(command: Command) -> Content
    ensures { result ≡ content_for command }
{
    match command {
        Command::Clock {
            year,
            month,
            day,
            hour,
            minute,
            second,
        } => Content::Clock {
            year,
            month,
            day,
            hour,
            minute,
            second,
        },
        Command::Resource { length } => Content::Address { length },
        Command::Lock { .. } | Command::Unknown => Content::Raw,
    }
}

// The command that a content of type 1 or 3 is; Unknown for any other.
pub fn command_of(content: Content) -> Command
    ensures { result ≡ command_for content }
{
    match content {
        Content::Address { length } => Command::Resource { length },
        Content::Clock {
            year,
            month,
            day,
            hour,
            minute,
            second,
        } => Command::Clock {
            year,
            month,
            day,
            hour,
            minute,
            second,
        },
        Content::Raw
        | Content::Frequencies { .. }
        | Content::Keep { .. }
        | Content::Reset { .. }
        | Content::Factory
        | Content::Drill { .. }
        | Content::Text { .. }
        | Content::Hold { .. } => Command::Unknown,
    }
}

// So many digits of a command's codes stand beside a content.
fn code_digits(c: Command) -> usize
    ensures { (result ≡ code_digits c) × (result ≤ 23) }
{
    match c {
        Command::Resource { .. } => 23,
        Command::Clock { .. } | Command::Lock { .. } | Command::Unknown => 0,
    }
}

// Digits, and zeros behind them.
fn padded(xs: &[u8]) -> [u8; 35]
    requires { length xs.now ≤ 35 }
    ensures { result ≡ sets (zeros 35) 0 xs.now }
{
    let mut d = [0u8; 35];
    d[..xs.len()].copy_from_slice(xs);
    d
}

// The digits beside the content of a command, of those of its codes.
pub fn digits_of(command: Command, codes: &[u8]) -> [u8; 35]
    ensures { result ≡ digits_for command codes.now }
{
    padded(octets::part(codes, 0, code_digits(command)))
}

// The digits of the code of a content's command, of those beside the content.
pub fn code_of(content: Content, digits: &[u8]) -> &[u8]
    ensures { result.now ≡ code_for content digits.now }
{
    octets::part(digits, 0, code_digits(command_of(content)))
}
