// Symbols: the numbers 0 to p-1, one byte each, where p is a field size. The fields are those modulo a prime, and the field of 16.
#![tactic(auto)]

ghost use Rattle.std.specs.Prelude.{◌≡◌, ◌%◌, ◌<◌};
ghost use Rattle.field.specs.Symbols.{listed, symbols};
ghost use Rattle.field.specs.Operations.{Operand, Operands, plus_bytes, minus_bytes, times_bytes, neg_byte, inv_byte, pow_byte, Listed};
ghost use Rattle.field.specs.Kernels.{Subtracts, Scales, Convolves, subtracted, scaled, convolution};

pub mod kernels; // kernels.rt: the loops over symbols' bytes, for all fields
mod modulo; // modulo.rt: the fields modulo a prime
mod sixteen; // sixteen.rt: the field of 16, bit polynomials of four bits

use modulo::{ModuloFactor, ModuloSum, reciprocal, reduce};
use sixteen::{BitFactor, BitSum};

pub fn is_listed(p: u8) -> bool
    ensures { result ≡ listed p }
{
    p == 16 || matches!(p, 3 | 5 | 7 | 11 | 13 | 17 | 19 | 23 | 29 | 31)
}

#[derive(Clone, Copy, PartialEq, Eq)]
pub struct Symbol {
    pub value: u8,
}

// A field comes from the callers as its size, so each operation asks for 16 itself. That the symbols are below p stays a clause: ZERO and ONE are
// symbols of every field, and know none.
impl Symbol {
    pub const ZERO: Symbol = Symbol { value: 0 };

    pub const ONE: Symbol = Symbol { value: 1 };

    // A contract can't name a constant: these two, which nothing calls, say what the constants are in the field of p.
    fn zero(p: u8) -> Symbol
        ensures { result.value ≡ (symbols p).ring.𝟘.byte }
    {
        Symbol::ZERO
    }

    fn one(p: u8) -> Symbol
        requires { Listed p }
        ensures { result.value ≡ (symbols p).ring.𝟙.byte }
    {
        Symbol::ONE
    }

    pub fn sum(self, other: Symbol, p: u8) -> Symbol
        requires { Operands p self.value other.value }
        ensures { result.value ≡ plus_bytes p self.value other.value }
    {
        if p == 16 {
            return Symbol {
                value: self.value ^ other.value,
            };
        }
        Symbol {
            value: (self.value + other.value) % p,
        }
    }

    // In the field of 16 minus is plus.
    pub fn negative(self, p: u8) -> Symbol
        requires { Operand p self.value }
        ensures { result.value ≡ neg_byte p self.value }
    {
        if p == 16 {
            return self;
        }
        Symbol {
            value: (p - self.value) % p,
        }
    }

    pub fn difference(self, other: Symbol, p: u8) -> Symbol
        requires { Operands p self.value other.value }
        ensures { result.value ≡ minus_bytes p self.value other.value }
    {
        if p == 16 {
            return self.sum(other, p);
        }
        Symbol {
            value: (self.value + (p - other.value)) % p,
        }
    }

    pub fn product(self, other: Symbol, p: u8) -> Symbol
        requires { Operands p self.value other.value }
        ensures { result.value ≡ times_bytes p self.value other.value }
    {
        if p == 16 {
            return Symbol {
                value: sixteen::product(self.value, other.value),
            };
        }
        let x = u16::from(self.value) * u16::from(other.value);
        Symbol {
            value: reduce(x, p, reciprocal(p)),
        }
    }

    // self plus x times y, reduced once.
    pub fn plus_product(self, x: Symbol, y: Symbol, p: u8) -> Symbol
        requires operand { Operand p self.value }
        requires operands { Operands p x.value y.value }
        ensures { result.value ≡ plus_bytes p self.value (times_bytes p x.value y.value) }
    {
        if p == 16 {
            let product = sixteen::product(x.value, y.value);
            return Symbol {
                value: self.value ^ product,
            };
        }
        let z = u16::from(self.value) + u16::from(x.value) * u16::from(y.value);
        Symbol {
            value: reduce(z, p, reciprocal(p)),
        }
    }

    // What the last bit of an exponent asks for: self where it is 1, one where it is 0.
    fn factor(self, exponent: u8, p: u8) -> Symbol
        requires { Operand p self.value }
        ensures { result.value ≡ pow_byte p self.value (exponent % 2) }
    {
        if exponent % 2 == 0 {
            return Symbol::ONE;
        }
        self
    }

    // By squaring. Five steps for every exponent, so that no branch hangs on its bits.
    fn power(self, exponent: u8, p: u8) -> Symbol
        requires operand { Operand p self.value }
        requires exponent_bound { exponent < 32 }
        ensures { result.value ≡ pow_byte p self.value exponent }
    {
        let mut result = Symbol::ONE;
        let mut base = self;
        for bit in 0..5u8 {
            let factor = base.factor(exponent >> bit, p);
            result = result.product(factor, p);
            base = base.product(base, p);
        }
        result
    }

    // The power p - 2. The inverse of 0 is given as 0.
    pub fn inverse(self, p: u8) -> Symbol
        requires { Operand p self.value }
        ensures { result.value ≡ inv_byte p self.value }
    {
        self.power(p - 2, p)
    }
}

// Takes c times the `len` symbols at `from` off those at `to`.
pub fn subtract(rows: &mut [u8], to: usize, from: usize, len: usize, c: Symbol, p: u8)
    requires { Subtracts p c.value to from len rows.old }
    ensures { rows.new ≡ subtracted p c.value to from len rows.old }
{
    if p == 16 {
        kernels::subtract(rows, to, from, len, &BitFactor { c });
    } else {
        let g = reciprocal(p);
        kernels::subtract(rows, to, from, len, &ModuloFactor { c, p, g });
    }
}

// Multiplies the `len` symbols at `at` by c.
pub fn scale(rows: &mut [u8], at: usize, len: usize, c: Symbol, p: u8)
    requires { Scales p c.value at len rows.old }
    ensures { rows.new ≡ scaled p c.value at len rows.old }
{
    if p == 16 {
        kernels::scale(rows, at, len, &BitFactor { c });
    } else {
        let g = reciprocal(p);
        kernels::scale(rows, at, len, &ModuloFactor { c, p, g });
    }
}

// The products of f's first `count` symbols with those of xs from `top` downwards, added up.
pub fn convolve(f: &[u8], xs: &[u8], top: usize, count: usize, p: u8) -> u8
    requires { Convolves p top count f.now xs.now }
    ensures { result ≡ (convolution p top count f.now xs.now).byte }
{
    if p == 16 {
        return kernels::convolve(f, xs, top, count, BitSum { sum: 0 });
    }
    kernels::convolve(f, xs, top, count, ModuloSum { sum: 0, p })
}
