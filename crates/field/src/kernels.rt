// The loops over bytes of symbols, each once for all fields. What a field does at a step stands behind a trait.
ghost use Rattle.std.specs.Prelude.{◌≡◌, ℕ, ◌+◌, ◌<◌, ◌≤◌};
ghost use Rattle.field.specs.Symbols.{symbol, sum_of, product_of};
ghost use Rattle.field.specs.Operations.{Operand, Operands, Listed, minus_bytes, times_bytes};
ghost use Rattle.field.specs.Kernels.{Subtracts, Scales, Convolves, subtracted, scaled, convolution};

// The factor `factor` of the field of `size`, prepared for a loop.
pub trait Factor {
    ghost size: { Self → ℕ };

    ghost factor: { Self → ℕ };

    fn times(&self, x: u8) -> u8
        requires { Operands (size self.now) (factor self.now) x }
        ensures { result ≡ times_bytes (size self.now) (factor self.now) x };

    // x less the factor times y.
    fn take_off(&self, x: u8, y: u8) -> u8
        requires operand { Operand (size self.now) x }
        requires operands { Operands (size self.now) (factor self.now) y }
        ensures { result ≡ minus_bytes (size self.now) x (times_bytes (size self.now) (factor self.now) y) };
}

// A sum of products in the field of `size`: the symbol of `number`. A product adds at most one to `terms`, and 65536 are allowed.
pub trait RunningSum {
    ghost size: { Self → ℕ };

    ghost number: { Self → ℕ };

    ghost terms: { Self → ℕ };

    fn with_product(self, x: u8, y: u8) -> Self
        requires size { Listed (size self) }
        requires few { terms self < 65536 }
        ensures size { size result ≡ size self }
        ensures terms { terms result ≤ terms self + 1 }
        ensures number { let p = size self in
            symbol p (number result) ≡ sum_of p (symbol p (number self)) (product_of p (symbol p x) (symbol p y)) };

    fn symbol(self) -> u8
        requires { Listed (size self) }
        ensures { result ≡ (symbol (size self) (number self)).byte };
}

// Takes the factor times the `len` symbols at `from` off those at `to`. By an index: the two regions stand in one slice, in either order.
// The factor is lent, since a struct this small goes through one integer on its way by value.
pub fn subtract<F: Factor>(rows: &mut [u8], to: usize, from: usize, len: usize, factor: &F)
    requires { Subtracts (F.size factor.now) (F.factor factor.now) to from len rows.old }
    ensures { rows.new ≡ subtracted (F.size factor.now) (F.factor factor.now) to from len rows.old }
{
    for i in 0..len {
        rows[to + i] = factor.take_off(rows[to + i], rows[from + i]);
    }
}

// Multiplies the `len` symbols at `at` by the factor.
pub fn scale<F: Factor>(rows: &mut [u8], at: usize, len: usize, factor: &F)
    requires { Scales (F.size factor.now) (F.factor factor.now) at len rows.old }
    ensures { rows.new ≡ scaled (F.size factor.now) (F.factor factor.now) at len rows.old }
{
    for x in &mut rows[at..at + len] {
        *x = factor.times(*x);
    }
}

// The products of f's first `count` symbols with those of xs from `top` downwards, added to an empty sum. By an index: f goes up and xs down.
pub fn convolve<S: RunningSum>(f: &[u8], xs: &[u8], top: usize, count: usize, empty: S) -> u8
    requires convolves { Convolves (S.size empty) top count f.now xs.now }
    requires none { S.terms empty ≡ 0 }
    requires zero { S.number empty ≡ 0 }
    ensures { result ≡ (convolution (S.size empty) top count f.now xs.now).byte }
{
    let mut sum = empty;
    for i in 0..count {
        sum = sum.with_product(f[i], xs[top - i]);
    }
    sum.symbol()
}
