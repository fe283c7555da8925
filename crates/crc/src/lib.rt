// The packet check: CRC-16 CCITT-FALSE.
#![tactic(auto)]

ghost use Rattle.std.specs.Prelude.{◌≡◌, ◌^◌};
ghost use Rattle.crc.specs.Crc16.{times_byte, taken, crc16};

// The register times x^8 less multiples of the generator, with no loop: its high byte x passes x^16 and comes back times x^12 + x^5 + 1;
// times x^12 its own upper half passes x^16 once more, so y stands for x and that half together.
fn times_byte(register: u16) -> u16
    ensures { result ≡ times_byte register }
{
    let x = register >> 8;
    let y = x ^ (x >> 4);
    (register << 8) ^ (y << 12) ^ (y << 5) ^ y
}

// The register with one more byte taken in at its high end.
fn taken_in(register: u16, byte: u8) -> u16
    ensures { result ≡ taken register byte }
{
    times_byte(register ^ ((byte as u16) << 8))
}

// The check of a packet's bytes, of any number; of none it is the start value.
pub fn packet_check(bytes: &[u8]) -> u16
    ensures { result ≡ crc16 bytes.now }
{
    bytes
        .iter()
        .fold(0xFFFF, |register, byte| taken_in(register, *byte))
}
