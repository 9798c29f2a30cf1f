// The field of 16: bit polynomials of four bits, modulo x^4 + x + 1.
ghost use Rattle.std.specs.Prelude.{◌≡◌, ◌*◌, ◌<◌};
ghost use Rattle.field.specs.BitPolynomials.{bit, bit_product, bit_remainder};
ghost use Rattle.field.specs.Operations.{Operands, times_bytes};

use crate::Symbol;
use crate::kernels::{Factor, RunningSum};

// Four ones where a has x^i, and else four zeros.
fn mask(a: u8, i: u8) -> u8
    requires { i < 8 }
    ensures { result ≡ bit i a * 15 }
{
    let one = (a >> i) & 1;
    (one << 4) - one
}

// b times x^i for each x^i that a has. In a loop a is the factor that stays, so that its masks are made once.
fn whole_product(a: u8, b: u8) -> u8
    requires { Operands 16 a b }
    ensures { result ≡ bit_product b a }
{
    (b & mask(a, 0)) ^ ((b & mask(a, 1)) << 1) ^ ((b & mask(a, 2)) << 2) ^ ((b & mask(a, 3)) << 3)
}

// x^4 is x + 1: what stands above the four bits comes back times x + 1.
fn fold(z: u8) -> u8
    requires { z < 128 }
    ensures { result ≡ bit_remainder z }
{
    let high = z >> 4;
    (z & 15) ^ high ^ (high << 1)
}

pub fn product(a: u8, b: u8) -> u8
    requires { Operands 16 a b }
    ensures { result ≡ times_bytes 16 a b }
{
    fold(whole_product(a, b))
}

#[derive(Clone, Copy)]
pub struct BitFactor {
    pub c: Symbol,
}

impl Factor for BitFactor {
    ghost size = { λ _. 16 };

    ghost factor = { λ f. f.c.value };

    fn times(&self, x: u8) -> u8 {
        product(self.c.value, x)
    }

    // Minus is plus here.
    fn take_off(&self, x: u8, y: u8) -> u8 {
        x ^ product(self.c.value, y)
    }
}

#[derive(Clone, Copy)]
pub struct BitSum {
    pub sum: u8,
    ghost low: { sum < 16 },
}

impl RunningSum for BitSum {
    ghost size = { λ _. 16 };

    ghost number = { λ s. s.sum };

    ghost terms = { λ _. 0 };

    // A byte of 16 or more stands for its low four bits.
    fn with_product(self, x: u8, y: u8) -> BitSum {
        let z = product(x & 15, y & 15);
        BitSum { sum: self.sum ^ z }
    }

    fn symbol(self) -> u8 {
        self.sum
    }
}
