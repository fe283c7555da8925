// The configuration commands of the digital sister band, GY/T 403-2024, clause 9.2: clock, resource code, lock frequency.
#![tactic(auto)]

mod judge;
mod parts;
mod puts;

ghost use Rattle.std.specs.Prelude.{◌≡◌, length};
ghost use Rattle.packet.specs.Writing.{told};
ghost use Rattle.sister.specs.Reading.{read_told, opened, address_of};
ghost use Rattle.sister.specs.Writing.{written, command_output};

use refusal::Refusal;

// What a tag names.
#[derive(Clone, Copy)]
pub enum Kind {
    Clock,
    Resource,
    Lock,
    // No Option, since Command::Unknown has a kind and the papers' table a row for it.
    Unknown,
}

// A command. Its address and the digits of its codes are lent beside it; Unknown is none.
#[derive(Clone, Copy)]
pub enum Command {
    Clock {
        year: u16,
        month: u8,
        day: u8,
        hour: u8,
        minute: u8,
        second: u8,
    },
    Resource {
        length: usize,
    },
    Lock {
        khz: u32,
        count: usize,
    },
    // No Option, since the papers let a writer be given it: its answer 39.
    Unknown,
}

// What a command says: 23 digits a code, 0 past the last.
#[derive(Clone, Copy)]
pub struct Opened {
    pub command: Command,
    pub codes: [u8; 5865],
}

// What the bytes of a command say, and 26, 39, 24, 25 or 27 where they are none.
pub fn read(command: &[u8]) -> Result<Opened, Refusal>
    ensures { read_told result ≡ opened command.now }
{
    judge::answer(command)?;
    Ok(Opened {
        command: parts::command(command),
        codes: parts::codes(command),
    })
}

// The address of a resource command; empty where there is none.
pub fn address(command: &[u8]) -> &[u8]
    ensures { result.now ≡ address_of command.now }
{
    if judge::answer(command).is_ok() {
        let l = parts::laid_in(command);
        octets::part(command, 4, l.address)
    } else {
        &command[0..0]
    }
}

// Writes a command at the output's start and answers its length: 23 digits a code in `codes`. 39, 26, 25, 27 or 10 where it is
// refused, and then nothing is written.
pub fn write(
    command: Command,
    address: &[u8],
    codes: &[u8],
    out: &mut [u8],
) -> Result<usize, Refusal>
    ensures answer { told result ≡ written command address.now codes.now (length out.old) }
    ensures output { out.new ≡ command_output command address.now codes.now out.old }
{
    judge::written_answer(command, address, codes, out.len())?;
    Ok(puts::put_command(command, address, codes, out))
}
