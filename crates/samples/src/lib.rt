// From samples to bits: a symbol of 16 pairs, in phase and quadrature, is decided by its pair and the pair before it.
#![tactic(auto)]

ghost use Rattle.std.specs.Prelude.{◌≡◌, ◌+◌, ◌≤◌, ◌<◌, length, get_or, T};
ghost use Rattle.std.specs.Float.Ieee.{of_bits};
ghost use Rattle.std.specs.Float.{binary64};
ghost use Rattle.laws.specs.Scan.{all};
ghost use Rattle.refusal.specs.Refusal.{answer_of};
ghost use Rattle.samples.specs.Whole.{is_whole, whole_of, of_whole, within};
ghost use Rattle.samples.specs.Numbers.{word_at, number_at};
ghost use Rattle.samples.specs.Symbol.{is_sample, is_part, is_pair, total, part, product, verdict_of, fresh_pair, told, decide_answer, decided};

use refusal::Refusal;

// The sum of a symbol's first eight samples less that of its last eight, in phase and in quadrature. The previous symbol's is the state.
#[repr(C)]
#[derive(Clone, Copy)]
pub struct Pair {
    pub inphase: f64,
    pub quadrature: f64,
}

// A bit, or none, with the dot product that decided it.
#[derive(Clone, Copy)]
pub enum Verdict {
    Zero(f64),
    One(f64),
    Undecided(f64),
}

// What a symbol gave: its verdict, and its pair, which is the next state.
#[derive(Clone, Copy)]
pub struct Decided {
    pub verdict: Verdict,
    pub state: Pair,
}

// 3 * 2^51: what is added to it has no room for a fraction.
const SHIFT: f64 = 6755399441055744.0;

// Whether x is a whole number from low to high. Minus zero is the whole number 0; a sum with SHIFT that gives x back had no fraction to lose.
fn whole_within(x: f64, low: f64, high: f64) -> bool
    requires t { T (is_part low) }
    requires t_2 { T (is_part high) }
    ensures { result ≡ within (whole_of low) (whole_of high) x }
{
    let shifted = SHIFT + x;
    if shifted < SHIFT + low {
        return false;
    }
    if SHIFT + high < shifted {
        return false;
    }
    shifted - SHIFT == x
}

fn is_sample(x: f64) -> bool
    ensures { result ≡ is_sample x }
{
    whole_within(x, -32768.0, 32767.0)
}

fn is_part(x: f64) -> bool
    ensures { result ≡ is_part x }
{
    whole_within(x, -524280.0, 524280.0)
}

fn are_samples(symbol: &[f64]) -> bool
    ensures { result ≡ all is_sample symbol.now }
{
    symbol.iter().all(|x| is_sample(*x))
}

// The sum of eight samples, every second from `from` on.
fn sum_eight(symbol: &[f64], from: usize) -> f64
    requires t { T (all is_sample symbol.now) }
    requires from_in_bounds { from + 15 ≤ length symbol.now }
    ensures { result ≡ of_whole (total symbol.now from 8) }
{
    let mut sum = 0.0;
    for k in 0..8 {
        sum = sum + symbol[from + 2 * k];
    }
    sum
}

// One number of a symbol's pair: the first eight samples less the last eight.
fn difference(symbol: &[f64], from: usize) -> f64
    requires t { T (all is_sample symbol.now) }
    requires from_in_bounds { from + 31 ≤ length symbol.now }
    ensures { result ≡ of_whole (part symbol.now from) }
{
    let early = sum_eight(symbol, from);
    let late = sum_eight(symbol, from + 16);
    early - late
}

// The dot product. It starts from plus zero, since two products can both be minus zero.
fn dot(a: Pair, b: Pair) -> f64
    requires t { T (is_pair a) }
    requires t_2 { T (is_pair b) }
    ensures { result ≡ of_whole (product (whole_of a.inphase) (whole_of a.quadrature) (whole_of b.inphase) (whole_of b.quadrature)) }
{
    0.0 + a.inphase * b.inphase + a.quadrature * b.quadrature
}

fn verdict_of(product: f64) -> Verdict
    requires t { T (is_whole product) }
    requires product_value { product ≡ of_whole (whole_of product) }
    ensures { result ≡ verdict_of (whole_of product) }
{
    if product > 0.0 {
        return Verdict::Zero(product);
    }
    if product < 0.0 {
        return Verdict::One(product);
    }
    Verdict::Undecided(0.0)
}

// Whether a symbol can be decided behind the state, and the first refusal that is due where it can't.
fn judge(state: Pair, symbol: &[f64]) -> Result<(), Refusal>
    ensures { answer_of result ≡ decide_answer state symbol.now }
{
    if !is_part(state.inphase) {
        return Err(Refusal::State);
    }
    if !is_part(state.quadrature) {
        return Err(Refusal::State);
    }
    if symbol.len() != 32 {
        return Err(Refusal::Symbol);
    }
    if !are_samples(symbol) {
        return Err(Refusal::Sample);
    }
    Ok(())
}

// The state before the first symbol.
pub fn fresh() -> Pair
    ensures { result ≡ fresh_pair }
{
    Pair {
        inphase: 0.0,
        quadrature: 0.0,
    }
}

// Decides a symbol by the pair before it; its own pair is the next state.
pub fn decide(state: Pair, symbol: &[f64]) -> Result<Decided, Refusal>
    ensures { told state result ≡ decided state symbol.now }
{
    judge(state, symbol)?;
    let pair = Pair {
        inphase: difference(symbol, 0),
        quadrature: difference(symbol, 1),
    };
    let verdict = verdict_of(dot(state, pair));
    Ok(Decided {
        verdict,
        state: pair,
    })
}

fn wide(b: u8) -> u64
    ensures value { result ≡ b }
    ensures small { result < 256 }
{
    b as u64
}

// Byte k from `at` on; 0 where there is none.
fn byte(bytes: &[u8], at: usize, k: usize) -> u64
    ensures value { result ≡ get_or bytes.now (at + k) 0 }
    ensures small { result < 256 }
{
    let n = bytes.len();
    if n <= at {
        return 0;
    }
    if n - at <= k {
        return 0;
    }
    wide(bytes[at + k])
}

// Eight bytes from `at` on, high first.
fn word_at(bytes: &[u8], at: usize) -> u64
    ensures { result ≡ word_at bytes.now at 8 }
{
    let mut n = 0u64;
    for k in 0..8 {
        n = n * 256 + byte(bytes, at, k);
    }
    n
}

// The float of a pattern. `from_bits` has no meaning at a NaN's, and 0.0 / 0.0 is one.
fn of_pattern(n: u64) -> f64
    ensures { result ≡ of_bits binary64 n }
{
    if n % 0x8000_0000_0000_0000 > 0x7ff0_0000_0000_0000 {
        return 0.0 / 0.0;
    }
    f64::from_bits(n)
}

// The number whose eight bytes stand from `at` on, high first.
pub fn number(bytes: &[u8], at: usize) -> f64
    ensures { result ≡ number_at bytes.now at }
{
    of_pattern(word_at(bytes, at))
}
