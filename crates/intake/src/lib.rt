// Reading in whole pieces, where one read may give less than is there.
#![tactic(auto)]

ghost use Rattle.std.specs.Prelude.{◌≡◌, ◌+◌, ◌<◌, ◌≤◌, IfOk, IfSome, None, drop, length, replicate, take};
ghost use Rattle.std.specs.Io.KnownBytes.{Consumes, IsAtEnd};

use std::io::Read;
use std::rt::Files;
use std::{fs, io};

// Memory of so many bytes, as long as a file may be.
pub fn room<const N: usize>() -> [u8; N]
    ensures { result ≡ replicate N 0 }
{
    [0; N]
}

// What one read gives, put behind the first `at` bytes of the piece; how many bytes came.
fn more<R: Read>(input: &mut R, piece: &mut [u8], at: usize) -> io::Result<usize>
    requires { at ≤ length piece.old }
    ensures front { take at piece.new ≡ take at piece.old }
    ensures within { IfOk result (λ n. at + n ≤ length piece.new) }
    ensures bytes { IfOk result (λ n. Consumes (R.remaining input.old) (R.remaining input.new) (take n (drop at piece.new))) }
    ensures end { IfOk result (λ n. n ≡ 0 → at < length piece.old → IsAtEnd (R.remaining input.new)) }
{
    input.read(&mut piece[at..])
}

// Reads until the piece is full or the input ends, and says how many bytes came; they stand at the start of the piece.
pub fn fill<R: Read>(input: &mut R, piece: &mut [u8]) -> io::Result<usize>
    ensures within { IfOk result (λ n. n ≤ length piece.new) }
    ensures bytes { IfOk result (λ n. Consumes (R.remaining input.old) (R.remaining input.new) (take n piece.new)) }
    ensures end { IfOk result (λ n. n < length piece.new → IsAtEnd (R.remaining input.new)) }
{
    let mut done: usize = 0;
    // a while: each read says for itself how far it came, so no range steps so
    while done < piece.len() {
        let n = more(input, piece, done)?;
        if n == 0 {
            return Ok(done);
        }
        done += n;
    }
    Ok(done)
}

// Reads the input to its end, and says how many bytes came; none where it is longer than the space.
pub fn whole<R: Read>(input: &mut R, space: &mut [u8]) -> io::Result<Option<usize>>
    ensures within { IfOk result (λ r. IfSome r (λ n. n ≤ length space.new)) }
    ensures bytes { IfOk result (λ r. IfSome r (λ n. IfSome (R.remaining input.old) (λ all. all ≡ take n space.new))) }
    ensures none { IfOk result (λ r. r ≡ None → IfSome (R.remaining input.old) (λ all. length space.new < length all)) }
{
    let n = fill(input, space)?;
    let mut more = [0u8; 1];
    if input.read(&mut more)? == 0 {
        Ok(Some(n))
    } else {
        Ok(None)
    }
}

// Reads a file to its end, and says how many bytes it has; none where it is longer than the space or can't be read to its end.
pub fn whole_file(rt: &impl Files, name: &str, space: &mut [u8]) -> Option<usize>
    ensures { IfSome result (λ n. n ≤ length space.new) }
{
    let Ok(mut file) = fs::open(rt, name) else {
        return None;
    };
    match whole(&mut file, space) {
        Ok(read) => read,
        Err(_) => None,
    }
}

#[cfg(test)]
mod tests {
    use super::*;

    // Gives at most three bytes a read, as a pipe may.
    #[derive(Drop)]
    struct Dripping<'a> {
        left: &'a [u8],
    }

    impl Read for Dripping<'_> {
        fn read(&mut self, buf: &mut [u8]) -> io::Result<usize> {
            let n = buf.len().min(self.left.len()).min(3);
            buf[..n].copy_from_slice(&self.left[..n]);
            self.left = &self.left[n..];
            Ok(n)
        }
    }

    #[test]
    fn pieces_are_full_up_to_the_last(rt: HostRuntime) -> io::Result<()> {
        let mut input = Dripping { left: b"abcdefg" };
        let mut piece = [0u8; 5];
        assert_eq!(rt; fill(&mut input, &mut piece)?, 5);
        assert!(rt; piece == *b"abcde");
        assert_eq!(rt; fill(&mut input, &mut piece)?, 2);
        assert!(rt; piece == *b"fgcde");
        assert_eq!(rt; fill(&mut input, &mut piece)?, 0);
        Ok(())
    }

    #[test]
    fn what_is_longer_than_the_space_is_none(rt: HostRuntime) -> io::Result<()> {
        let mut space = [0u8; 4];
        assert!(rt; whole(&mut Dripping { left: b"abcd" }, &mut space)? == Some(4));
        assert!(rt; space == *b"abcd");
        assert!(rt; whole(&mut Dripping { left: b"abcde" }, &mut space)? == None);
        Ok(())
    }

    #[test]
    fn a_file_is_read_to_its_end(rt: HostRuntime) -> io::Result<()> {
        let mut space = [0u8; 4];
        fs::write(&rt, "whole.txt", "abcd")?;
        let fits = whole_file(&rt, "whole.txt", &mut space);
        fs::write(&rt, "whole.txt", "abcde")?;
        let longer = whole_file(&rt, "whole.txt", &mut space);
        fs::remove_file(&rt, "whole.txt")?;
        assert!(rt; fits == Some(4));
        assert!(rt; longer == None);
        assert!(rt; whole_file(&rt, "whole.txt", &mut space) == None);
        Ok(())
    }
}
