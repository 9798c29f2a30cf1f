// One update, of row r by row s.
ghost use Rattle.std.specs.Prelude.{◌≡◌, ◌+◌, ◌<◌, length};
ghost use Rattle.field.specs.Symbols.{symbols};
ghost use Rattle.poly.specs.Buffers.{Decided};
ghost use Rattle.poly.specs.Lent.{Untouched};
ghost use Rattle.curves.specs.Curves.{Zero};
ghost use Rattle.rows.specs.Bytes.{Holds, rows_bytes};
ghost use Rattle.rows.specs.Work.{Crosses, leads_ratio, updated_rows, delayed_byte, Slots, SlotVanishes, Exchanges, Exchanged};

use crate::Shape;
use crate::view::Rows;
use field::Symbol;

// Row r leads at weight w and power s of y, row s at weight v and the same power.
#[derive(Clone, Copy)]
pub struct Crossing {
    pub r: usize,
    pub w: usize,
    pub s: usize,
    pub v: usize,
}

// `update` writes the rows, so their bytes are lent to it beside the shape, and no view holds them; so `ratio`, which it calls, takes them too.
impl Crossing {
    // The leading coefficient of row r over that of row s. Inlined, so that `vanishes` and `update` work out one inverse between them.
    #[inline(always)]
    fn ratio(self, rows: &[u8], shape: Shape) -> Symbol
        requires { Crosses shape rows.now self.r self.w self.s self.v }
        ensures { result.value ≡ (leads_ratio shape rows.now self.r self.w self.s self.v).byte }
    {
        let Crossing { r, w, s, v } = self;
        let p = shape.p;
        let lift = shape.u * s;
        let at = shape.place(r, s, w - lift);
        let a = Symbol { value: rows[at] };
        let under = shape.place(s, s, v - lift);
        let b = Symbol { value: rows[under] };
        a.product(b.inverse(p), p)
    }

    // Whether the update would make row r zero.
    pub fn vanishes(self, rows: &Rows) -> bool
        requires { Crosses rows.now.shape rows.now.bytes.now self.r self.w self.s self.v }
        ensures { Decided result (Zero (symbols rows.now.shape.p).ring (updated_rows rows.now.shape rows.now.bytes.now self.r self.w
            self.s self.v self.r)) }
    {
        let Crossing { r, w, s, v } = self;
        let Rows { bytes, shape } = *rows;
        let c = self.ratio(bytes, shape);
        let up = v.saturating_sub(w);
        let down = w.saturating_sub(v);
        let curve = shape.curve_bytes();
        let slot = shape.slot();
        for j in 0..=shape.l {
            let at = j * slot;
            if !slot_vanishes(bytes, shape, r * curve + at, up, s * curve + at, down, c) {
                return false;
            }
        }
        true
    }

    // x^d moves what stands in a slot no further than its end, as no term of the result weighs more than the width: so a row is updated
    // in one run over its bytes.
    pub fn update(self, rows: &mut [u8], shape: Shape)
        requires { Crosses shape rows.old self.r self.w self.s self.v }
        ensures { Holds shape rows.new (updated_rows shape rows.old self.r self.w self.s self.v)
            × Untouched (rows_bytes shape) rows.old rows.new }
    {
        let Crossing { r, w, s, v } = self;
        let p = shape.p;
        let len = shape.curve_bytes();
        let c = self.ratio(rows, shape);
        let row = r * len;
        let other = s * len;
        if v <= w {
            let d = w - v;
            field::subtract(rows, row + d, other, len - d, c, p);
        } else {
            let d = v - w;
            swap(rows, row, other, len);
            field::scale(rows, row, len, c.negative(p), p);
            field::subtract(rows, row + d, other, len - d, Symbol::ONE.negative(p), p);
        }
    }
}

// The coefficient of x^e in x^d times the x-polynomial at `at`.
fn delayed(rows: &[u8], at: usize, d: usize, e: usize) -> Symbol
    requires { at + e < length rows.now }
    ensures { result.value ≡ delayed_byte rows.now at d e }
{
    if e < d {
        return Symbol::ZERO;
    }
    Symbol {
        value: rows[at + (e - d)],
    }
}

// Whether x^up times the slot at a, less c x^down times the slot at b, is zero.
fn slot_vanishes(
    rows: &[u8],
    shape: Shape,
    a: usize,
    up: usize,
    b: usize,
    down: usize,
    c: Symbol,
) -> bool
    requires { Slots shape c.value a b rows.now }
    ensures { Decided result (SlotVanishes shape c.value a up b down rows.now) }
{
    let p = shape.p;
    for e in 0..=shape.width {
        let x = delayed(rows, a, up, e);
        let y = delayed(rows, b, down, e);
        if x.difference(c.product(y, p), p) != Symbol::ZERO {
            return false;
        }
    }
    true
}

// The bytes of two rows change places.
fn swap(rows: &mut [u8], a: usize, b: usize, len: usize)
    requires { Exchanges a b len rows.old }
    ensures { Exchanged a b len rows.old rows.new }
{
    let low = a.min(b);
    let (front, back) = rows.split_at_mut(a.max(b));
    front[low..low + len].swap_with_slice(&mut back[..len]);
}
