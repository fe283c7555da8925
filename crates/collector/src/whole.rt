// Whether joined bytes are a whole packet: their size, the packet check, the fill.
ghost use Rattle.std.specs.Prelude.{◌≡◌};
ghost use Rattle.laws.specs.Scan.{all};
ghost use Rattle.collector.specs.Whole.{is_fill, passes};

fn all_fill(b: &[u8]) -> bool
    ensures { result ≡ all is_fill b.now }
{
    b.iter().all(|x| *x == 0xFF)
}

#[tactic(auto, unfolding(crate::specs::Whole::passes, crate::specs::Whole::sized, crate::specs::Whole::checked, crate::specs::Whole::filled))]
pub(crate) fn is_whole(b: &[u8]) -> bool
    ensures { result ≡ passes b.now }
{
    let p = size::packet_size(b);
    (p + 2..=p + 5).contains(&b.len())
        && crc::packet_check(&b[0..p]) == u16::from_be_bytes([b[p], b[p + 1]])
        && all_fill(&b[p + 2..])
}
