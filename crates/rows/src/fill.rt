// The rows that a start fills. A slot is a place and a length, since what is taken off it stands in the same buffer.
ghost use Rattle.std.specs.Prelude.{◌≡◌, suc, ◌*◌};
ghost use Rattle.poly.specs.Buffers.{Factors};
ghost use Rattle.poly.specs.Lent.{Untouched};
ghost use Rattle.rows.specs.Bytes.{rows_bytes};
ghost use Rattle.rows.specs.Filling.{Power, RaisedSlot, Raised, FillsLow, FilledLow, RaisesRow, raised_row, Fills};
ghost use Rattle.rows.specs.Filling.{Filled};

use crate::Shape;
use field::Symbol;

// The x-polynomial in the `len` bytes from `at` on, times f, `count` times.
fn times_power(rows: &mut [u8], at: usize, len: usize, f: &[u8], count: usize, p: u8)
    requires { Factors p f.now at len rows.old }
    ensures { Power p f.now count at len rows.old rows.new }
{
    for _ in 0..count {
        poly::multiply(rows, at, len, f, p);
    }
}

// Slot j of y - h times the curve at `base`: slot j - 1 less h times slot j.
fn raise_slot(rows: &mut [u8], base: usize, slot: usize, j: usize, h: &[u8], p: u8)
    requires { Factors p h.now base (suc j * slot) rows.old }
    ensures { RaisedSlot p h.now base slot j rows.old rows.new }
{
    let at = base + j * slot;
    let minus = Symbol::ONE.negative(p);
    poly::multiply(rows, at, slot, h, p);
    field::scale(rows, at, slot, minus, p);
    if 0 < j {
        field::subtract(rows, at, at - slot, slot, minus, p);
    }
}

// The curve of `slots` slots at `base` times y - h, downwards, so that the slot below is still as it was.
fn times_y_less_h(rows: &mut [u8], base: usize, slot: usize, slots: usize, h: &[u8], p: u8)
    requires { Factors p h.now base (slots * slot) rows.old }
    ensures { Raised p h.now base slot slots rows.old rows.new }
{
    for j in (0..slots).rev() {
        raise_slot(rows, base, slot, j, h, p);
    }
}

// Row i of those up to m, (y - h)^i e^(m-i), where the row is zero.
fn fill_low(rows: &mut [u8], shape: Shape, i: usize, m: usize, h: &[u8], e: &[u8])
    requires { FillsLow shape i m h.now e.now rows.old }
    ensures { FilledLow shape i m h.now e.now rows.old rows.new }
{
    let slot = shape.slot();
    let base = i * shape.curve_bytes();
    rows[base] = Symbol::ONE.value;
    times_power(rows, base, slot, e, m - i, shape.p);
    for q in 0..i {
        times_y_less_h(rows, base, slot, q + 2, h, shape.p);
    }
}

// y times row i - 1, as row i, whose slot 0 stays as it is.
fn raise_row(rows: &mut [u8], shape: Shape, i: usize)
    requires { RaisesRow shape i rows.old }
    ensures { rows.new ≡ raised_row shape i rows.old }
{
    let slot = shape.slot();
    let curve = shape.curve_bytes();
    rows.copy_within((i - 1) * curve..i * curve - slot, i * curve + slot);
}

// Rows 0 to m by their powers, each row above as y times the one before it. `work` has h in its first 32 bytes and e in the next.
pub fn fill(rows: &mut [u8], shape: Shape, m: usize, work: &[u8])
    requires { Fills shape work.now rows.old }
    ensures { Filled shape m work.now rows.new × Untouched (rows_bytes shape) rows.old rows.new }
{
    let h = &work[..32];
    let e = &work[32..];
    poly::clear(rows, shape.rows_bytes());
    for i in 0..=shape.l {
        if i <= m {
            fill_low(rows, shape, i, m, h, e);
        } else {
            raise_row(rows, shape, i);
        }
    }
}
