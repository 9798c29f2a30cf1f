// For a measurement in C: the inverse, and the row update as the field crate has it and with a plain remainder, for the primes alone.
#![tactic(auto)]

ghost use Rattle.std.specs.Prelude.{◌≡◌, ◌≢◌};
ghost use Rattle.field.specs.Operations.{Operand, inv_byte};
ghost use Rattle.field.specs.Kernels.{Subtracts, subtracted};

use field::Symbol;
use field::kernels::{self, Factor};

#[unsafe(no_mangle)]
pub extern "C" fn kernel_inverse(a: u8, p: u8) -> u8
    requires { Operand p a }
    ensures { result ≡ inv_byte p a }
{
    let inverse = Symbol { value: a }.inverse(p);
    inverse.value
}

// C gives one buffer, and both regions by their numbers.
#[unsafe(no_mangle)]
pub extern "C" fn kernel_subtract(rows: &mut [u8], to: usize, from: usize, len: usize, c: u8, p: u8)
    requires { Subtracts p c to from len rows.old }
    ensures { rows.new ≡ subtracted p c to from len rows.old }
{
    field::subtract(rows, to, from, len, Symbol { value: c }, p)
}

// The factor c modulo p, with a plain remainder at each step.
#[derive(Clone, Copy)]
struct RemainderFactor {
    c: u8,
    p: u8,
    ghost not_sixteen: { p ≢ 16 },
}

impl Factor for RemainderFactor {
    ghost size = { λ f. f.p };

    ghost factor = { λ f. f.c };

    fn times(&self, x: u8) -> u8 {
        let z = u16::from(self.c) * u16::from(x);
        (z % u16::from(self.p)) as u8
    }

    fn take_off(&self, x: u8, y: u8) -> u8 {
        let m = self.p - self.c;
        let z = u16::from(x) + u16::from(m) * u16::from(y);
        (z % u16::from(self.p)) as u8
    }
}

#[unsafe(no_mangle)]
pub extern "C" fn kernel_remainder(
    rows: &mut [u8],
    to: usize,
    from: usize,
    len: usize,
    c: u8,
    p: u8,
)
    requires subtracts { Subtracts p c to from len rows.old }
    requires not_sixteen { p ≢ 16 }
    ensures { rows.new ≡ subtracted p c to from len rows.old }
{
    kernels::subtract(rows, to, from, len, &RemainderFactor { c, p })
}
