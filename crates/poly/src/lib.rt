// Polynomials in x in lent bytes, lowest power first, and the job encode.
#![tactic(auto)]

ghost use Rattle.std.specs.Prelude.{◌≡◌, ◌+◌, ◌≤◌, length};
ghost use Rattle.poly.specs.Encode.{Encoded, value_at};
ghost use Rattle.poly.specs.Buffers.{Coefficients, Factors, product_from, Product, Halves, correction_of, Places, Interpolated};
ghost use Rattle.poly.specs.Lent.{Zeroed};
ghost use Rattle.poly.specs.Refusals.{outcome};

use field::Symbol;

pub mod limits; // limits.rt: the limits of the numbers that a caller gives
mod refusals; // refusals.rt: the tests of arguments, and encode's refusals
mod refused; // refused.rt: why a call is refused

pub use refusals::{repeated, too_large};
pub use refused::{Refused, outcome};

// The first `len` bytes become zero. A function for its contract, on which three crates stand.
pub fn clear(xs: &mut [u8], len: usize)
    requires { len ≤ length xs.old }
    ensures { Zeroed len xs.old xs.new }
{
    xs[..len].fill(0);
}

// The bytes of `to` become those of `from`. By a loop: with std's copy_from_slice an archive for C wants memmove from whoever links it.
pub fn copy(to: &mut [u8], from: &[u8])
    requires { length to.old ≡ length from.now }
    ensures { to.new ≡ from.now }
{
    for i in 0..from.len() {
        to[i] = from[i];
    }
}

// The value at a, by Horner's rule.
pub fn value_at(coefficients: &[u8], a: u8, p: u8) -> u8
    requires { Coefficients p a coefficients.now }
    ensures { result ≡ (value_at p coefficients.now a).byte }
{
    let x = Symbol { value: a };
    let mut sum = Symbol::ZERO;
    for c in coefficients.iter().rev() {
        sum = Symbol { value: *c }.plus_product(x, sum, p);
    }
    sum.value
}

// Byte s of the word becomes the message's value at point s.
pub fn encode(p: u8, points: &[u8], message: &[u8], word: &mut [u8]) -> Result<(), Refused>
    ensures { Encoded p points.now message.now word.old word.new (outcome result) }
{
    refusals::refuse_encode(p, points, message, word)?;
    for (s, a) in points.iter().enumerate() {
        word[s] = value_at(message, *a, p);
    }
    Ok(())
}

// The coefficient of x^e in f times the x-polynomial from `at` on.
fn product_at(f: &[u8], xs: &[u8], at: usize, e: usize, p: u8) -> u8
    requires { Factors p f.now at (e + 1) xs.now }
    ensures { result ≡ (product_from p f.now xs.now at e).byte }
{
    field::convolve(f, xs, at + e, f.len().min(e + 1), p)
}

// The x-polynomial in the `len` bytes from `at` on, times f, as far as the bytes go.
pub fn multiply(xs: &mut [u8], at: usize, len: usize, f: &[u8], p: u8)
    requires { Factors p f.now at len xs.old }
    ensures { Product p f.now at len xs.old xs.new }
{
    // downwards, so that what stands below is still as it was
    for i in (0..len).rev() {
        xs[at + i] = product_at(f, xs, at, i, p);
    }
}

// With h in the first 32 bytes and e in the next 32: the multiple of e by which h is too large at a, where b is wanted.
fn correction(work: &[u8], a: u8, b: u8, p: u8) -> Symbol
    requires { Halves p a b work.now }
    ensures { result.value ≡ correction_of p a b work.now }
{
    let h = Symbol {
        value: value_at(&work[..32], a, p),
    };
    let e = Symbol {
        value: value_at(&work[32..], a, p),
    };
    h.difference(Symbol { value: b }, p)
        .product(e.inverse(p), p)
}

// h through the received places in the first 32 bytes and e, the product of x - point, in the next 32, one place after the other:
// there are at most 31, so each fits. Both stand in one buffer, since field::subtract takes one region of a buffer off another.
pub fn interpolate(points: &[u8], word: &[u8], p: u8) -> [u8; 64]
    requires { Places p points.now word.now }
    ensures { Interpolated p points.now word.now (length points.now) result }
{
    let mut work = [0u8; 64];
    work[32] = Symbol::ONE.value;
    for (a, b) in points.iter().zip(word) {
        let c = correction(&work, *a, *b, p);
        field::subtract(&mut work, 0, 32, 32, c, p);
        let factor = [Symbol { value: *a }.negative(p).value, Symbol::ONE.value];
        multiply(&mut work, 32, 32, &factor, p);
    }
    work
}
