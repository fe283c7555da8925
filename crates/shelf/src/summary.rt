// The summary: 32 entries of eight bytes, one per type.
ghost use Rattle.std.specs.Prelude.{◌≡◌, [], ◌+◌, ◌/◌, ◌<◌, ◌≤◌, length};
ghost use Rattle.std.proofs.lemmas.List.Edits.{sets};
ghost use Rattle.shelf.specs.Record.{type_in};
ghost use Rattle.shelf.specs.Summary.{word, word_at, noted, summary_of};

// The type of a record's packet.
pub(crate) fn type_in(given: &[u8]) -> usize
    ensures { (result ≡ type_in given.now) × (result < 32) }
{
    format::field(given, 32, 5) as usize
}

// The number of four bytes from a byte on.
#[tactic(auto, unfolding(crate::specs::Summary::word_at))]
fn word_at(summary: &[u8], at: usize) -> u32
    requires { at < 65536 }
    ensures { result ≡ word_at summary.now at }
{
    let a = octets::byte(summary, at);
    let b = octets::byte(summary, at + 1);
    let c = octets::byte(summary, at + 2);
    let d = octets::byte(summary, at + 3);
    u32::from_be_bytes([a, b, c, d])
}

// A number as four bytes from a byte on.
#[tactic(auto, unfolding(crate::specs::Summary::word))]
fn put_word(summary: &mut [u8], at: usize, x: u32)
    requires { at + 4 ≤ length summary.old }
    ensures { summary.new ≡ sets summary.old at (word x) }
{
    summary[at..at + 4].copy_from_slice(&x.to_be_bytes());
}

// Rewrites the entry of a type: one more, and this the last number.
pub(crate) fn note(summary: &mut [u8], kind: usize, number: u32)
    requires { (length summary.old ≡ 256) × (kind < 32) }
    ensures { summary.new ≡ noted summary.old kind number }
{
    let at = 8 * kind;
    put_word(summary, at, word_at(summary, at).wrapping_add(1));
    put_word(summary, at + 4, number);
}

// The summary of no record.
pub(crate) fn clear(summary: &mut [u8])
    requires { length summary.old ≡ 256 }
    ensures { summary.new ≡ summary_of [] 0 }
{
    for kind in 0..32 {
        put_word(summary, 8 * kind, 0);
        put_word(summary, 8 * kind + 4, u32::MAX);
    }
}

// Notes every record of the shelf in a summary of none.
pub(crate) fn count(shelf: &[u8], summary: &mut [u8])
    requires { (summary.old ≡ summary_of shelf.now 0) × (length shelf.now / 256 ≤ 4096) }
    ensures { summary.new ≡ summary_of shelf.now (length shelf.now / 256) }
{
    for (i, record) in shelf.chunks_exact(256).enumerate() {
        note(summary, type_in(record), i as u32);
    }
}
