// The fields of a prime size: sums and products modulo p.
ghost use Rattle.std.specs.Prelude.{◌≡◌, ◌≢◌, ◌+◌, ◌*◌, ◌/◌, ◌%◌, ◌≤◌};
ghost use Rattle.field.specs.Operations.{Listed};
ghost use Rattle.field.specs.Kernels.{Reduces};

use crate::Symbol;
use crate::kernels::{Factor, RunningSum};

// A product with this number and a shift make the quotient by p.
pub fn reciprocal(p: u8) -> u16
    requires { Listed p }
    ensures { result ≡ 65536 / p + 1 }
{
    (65536 / u32::from(p) + 1) as u16
}

// z modulo p, with no division.
pub fn reduce(z: u16, p: u8, g: u16) -> u8
    requires { Reduces p g z }
    ensures { result ≡ z % p }
{
    let q = (u32::from(z) * u32::from(g) / 65536) as u16;
    (z - q * u16::from(p)) as u8
}

// The factor c, with the reciprocal g of p made once.
#[derive(Clone, Copy)]
pub struct ModuloFactor {
    pub c: Symbol,
    pub p: u8,
    pub g: u16,
    ghost not_sixteen: { p ≢ 16 },
    ghost reciprocal: { g ≡ 65536 / p + 1 },
}

impl Factor for ModuloFactor {
    ghost size = { λ f. f.p };

    ghost factor = { λ f. f.c.value };

    fn times(&self, x: u8) -> u8 {
        reduce(u16::from(self.c.value) * u16::from(x), self.p, self.g)
    }

    fn take_off(&self, x: u8, y: u8) -> u8 {
        let m = self.p - self.c.value;
        let z = u16::from(x) + u16::from(m) * u16::from(y);
        reduce(z, self.p, self.g)
    }
}

// A sum of whole products, divided once at the end. 65536 products of bytes stay within 32 bits.
#[derive(Clone, Copy)]
pub struct ModuloSum {
    pub sum: u32,
    pub p: u8,
    ghost not_sixteen: { p ≢ 16 },
}

impl RunningSum for ModuloSum {
    ghost size = { λ s. s.p };

    ghost number = { λ s. s.sum };

    ghost terms = { λ s. (s.sum + 65024) / 65025 };

    fn with_product(self, x: u8, y: u8) -> ModuloSum {
        let sum = self.sum + u32::from(x) * u32::from(y);
        ModuloSum { sum, p: self.p }
    }

    fn symbol(self) -> u8 {
        (self.sum % u32::from(self.p)) as u8
    }
}
