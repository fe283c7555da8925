// D, a state's two numbers, how many bytes the symbol's numbers have (two bytes), the numbers, at most 40, of eight bytes each: the answer, the
// verdict, and the patterns of its product and of the state behind it.
use crate::{input, say};
use samples::{Decided, Pair, Verdict};
use std::io;

// A space and a number's pattern in hex; a word for what has none.
fn pattern(rt: &impl Print, x: f64) -> io::Result<()> {
    if x != x {
        return say::text(rt, b" nan");
    }
    let bits = f64::to_bits(x);
    print!(rt; " {bits:016x}")
}

fn verdict(rt: &impl Print, v: Verdict) -> io::Result<()> {
    match v {
        Verdict::Zero(product) => {
            say::text(rt, b" zero")?;
            pattern(rt, product)
        }
        Verdict::One(product) => {
            say::text(rt, b" one")?;
            pattern(rt, product)
        }
        Verdict::Undecided(product) => {
            say::text(rt, b" undecided")?;
            pattern(rt, product)
        }
    }
}

// The numbers of a record, zeros behind them.
fn numbers(b: &[u8]) -> [f64; 40] {
    let mut all = [0.0f64; 40];
    for k in 0..40 {
        all[k] = samples::number(b, 19 + 8 * k);
    }
    all
}

// What is printed beside a refusal: the state as it was, and no verdict.
fn undecided(state: Pair) -> Decided {
    Decided {
        verdict: Verdict::Undecided(0.0),
        state,
    }
}

// A whole record.
pub(crate) fn record(rt: &impl Print, b: &[u8]) -> io::Result<()> {
    let state = Pair {
        inphase: samples::number(b, 1),
        quadrature: samples::number(b, 9),
    };
    let n = (input::two(b, 17) as usize / 8).min(40);
    let (answer, decided) = match samples::decide(state, &numbers(b)[..n]) {
        Ok(decided) => (0, decided),
        Err(refusal) => (refusal.number(), undecided(state)),
    };
    say::one(rt, b"decide", answer.into())?;
    verdict(rt, decided.verdict)?;
    pattern(rt, decided.state.inphase)?;
    pattern(rt, decided.state.quadrature)?;
    say::text(rt, b"\n")
}
