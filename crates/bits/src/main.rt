// From samples on standard input to packed bits on standard output: each number eight bytes, high first, 32 numbers a symbol, a bit a symbol.
#![tactic(auto)]

ghost use Rattle.std.specs.Prelude.{◌≡◌, ◌+◌, ◌≤◌, length};
ghost use Rattle.std.proofs.lemmas.List.Edits.{sets};
ghost use Rattle.laws.specs.Bits.{bits};
ghost use Rattle.samples.specs.Coding.{bit_of};
ghost use Rattle.bits.specs.Packed.{numbers_from, symbols_in, decided_bits, told, taken_from};

use refusal::Refusal;
use samples::{Pair, Verdict};
use std::io;
use std::io::Read;

// Why a run ended before its input did.
#[derive(Clone, Copy)]
enum Early {
    Refused(Refusal),
    Cut,
}

// What a piece gave: the state behind it, how many of its symbols were taken, and why the next one was not, where there is one.
#[derive(Clone, Copy)]
struct Taken {
    state: Pair,
    symbols: usize,
    refusal: Option<Refusal>,
}

// A symbol's 32 numbers, from `at` on.
fn symbol_at(bytes: &[u8], at: usize) -> [f64; 32]
    requires { at + 256 ≤ length bytes.now }
    ensures { result ≡ numbers_from bytes.now at 32 }
{
    let mut s = [0.0f64; 32];
    for k in 0..32 {
        s[k] = samples::number(bytes, at + 8 * k);
    }
    s
}

// What is written for a verdict: an undecided one as 0.
fn bit_of(verdict: Verdict) -> u32
    ensures { result ≡ bit_of verdict }
{
    match verdict {
        Verdict::Zero(_) | Verdict::Undecided(_) => 0,
        Verdict::One(_) => 1,
    }
}

// Decides the symbols of a piece in order, up to the first that is refused or not there whole, and packs their bits, the first highest.
fn take(state: Pair, bytes: &[u8], out: &mut [u8]) -> Taken
    requires { length bytes.now ≤ 16384 }
    ensures answer { told result ≡ taken_from state 0 (symbols_in bytes.now) }
    ensures out { bits out.new ≡ sets (bits out.old) 0 (decided_bits state (symbols_in bytes.now)) }
{
    let symbols = bytes.len() / 256;
    let mut so_far = state;
    for k in 0..symbols {
        match samples::decide(so_far, &symbol_at(bytes, k * 256)) {
            Ok(decided) => {
                format::put_field(out, k, 1, bit_of(decided.verdict));
                so_far = decided.state;
            }
            Err(refusal) => {
                return Taken {
                    state: so_far,
                    symbols: k,
                    refusal: Some(refusal),
                };
            }
        }
    }
    Taken {
        state: so_far,
        symbols,
        refusal: None,
    }
}

// The state so far, and how many symbols were taken.
#[derive(Drop)]
struct Packing {
    state: Pair,
    symbols: u64,
}

impl Packing {
    // Decides the symbols of a piece and writes the bytes of their bits; why the run ends here, where something is wrong.
    fn pack(&mut self, rt: &impl Print, piece: &[u8]) -> io::Result<Option<Early>>
        requires { length piece.now ≤ 16384 }
    {
        let mut out = [0u8; 8];
        let taken = take(self.state, piece, &mut out);
        self.state = taken.state;
        self.symbols = self.symbols.wrapping_add(taken.symbols as u64);
        let bytes = taken.symbols.div_ceil(8);
        if bytes <= 8 {
            rt.write_all(&out[..bytes])?;
        }
        Ok(match taken.refusal {
            Some(refusal) => Some(Early::Refused(refusal)),
            None if piece.len() % 256 != 0 => Some(Early::Cut),
            None => None,
        })
    }
}

// Reads 64 symbols at a time; what is short or refused is the run's end. How many symbols were taken, and what was wrong behind them. A proved loop ends,
// and nothing says that the input does: so the turns are counted up to a number that no run reaches.
fn run(rt: &impl Print, input: &mut impl Read) -> io::Result<(u64, Option<Early>)> {
    let mut packing = Packing {
        state: samples::fresh(),
        symbols: 0,
    };
    let mut piece = [0u8; 16384];
    for _ in 0..u64::MAX {
        let n = intake::fill(input, &mut piece)?;
        let early = packing.pack(rt, &piece[..n])?;
        if early.is_some() || n < 16384 {
            return Ok((packing.symbols, early));
        }
    }
    Ok((packing.symbols, None))
}

// Where the run ended early, a line on standard error says at which symbol, counted from 0, and why.
fn main(rt: HostRuntime) -> io::Result<()> {
    let (symbols, early) = run(&rt, &mut rt.reader())?;
    match early {
        Some(Early::Refused(refusal)) => {
            eprintln!(rt; "bits: refused with {refusal} at symbol {symbols}")
        }
        Some(Early::Cut) => eprintln!(rt; "bits: the input ends inside symbol {symbols}"),
        None => Ok(()),
    }
}
