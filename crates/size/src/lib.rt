// The size that a packet says of itself: its length field counts all but its first two bytes.
#![tactic(auto)]

ghost use Rattle.std.specs.Prelude.{◌≡◌};
ghost use Rattle.size.specs.Size.{packet_size};

// What the length field says, and two: the size of the packet that begins with these bytes.
pub fn packet_size(b: &[u8]) -> usize
    ensures { result ≡ packet_size b.now }
{
    let high = octets::byte(b, 0);
    let low = octets::byte(b, 1);
    usize::from(high % 8) * 256 + usize::from(low) + 2
}
