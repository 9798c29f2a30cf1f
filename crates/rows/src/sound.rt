// Whether rows are as a turn leaves them.
ghost use Rattle.std.specs.Prelude.{suc, ◌≤◌, length};
ghost use Rattle.poly.specs.Buffers.{Decided};
ghost use Rattle.rows.specs.Bytes.{rows_bytes};
ghost use Rattle.rows.specs.Jobs.{AsLeft};
ghost use Rattle.rows.specs.Work.{Fine, ZeroBetween, SoundRow};

use crate::Shape;
use crate::view::Rows;

// Whether the bytes from a to b are zero.
fn zero_between(rows: &[u8], a: usize, b: usize) -> bool
    requires { (a ≤ b) × (b ≤ length rows.now) }
    ensures { Decided result (ZeroBetween rows.now a b) }
{
    // iter().all(..) takes a third longer
    for x in &rows[a..b] {
        if *x != 0 {
            return false;
        }
    }
    true
}

impl Rows<'_> {
    ghost use Rattle.rows.specs.View.{ring_of, row_of, Light};

    // Whether the terms of row i above the width are zero: in slot j the last u j.
    fn row_light(&self, i: usize) -> bool
        requires { i ≤ self.now.shape.l }
        ensures { Decided result (Light self.now i) }
    {
        let shape = self.shape;
        let base = i * shape.curve_bytes();
        let slot = shape.slot();
        for j in 0..=shape.l {
            let end = base + j * slot + slot;
            if !zero_between(self.bytes, end - shape.u * j, end) {
                return false;
            }
        }
        true
    }

    // Whether row i is as it is to be while r is the current row.
    fn row_sound(&self, i: usize, r: usize) -> bool
        requires { (i ≤ self.now.shape.l) × (r ≤ suc self.now.shape.l) }
        ensures { Decided result (SoundRow (ring_of self.now) self.now.shape.u self.now.shape.width r i (row_of self.now i)) }
    {
        if !self.row_light(i) {
            return false;
        }
        let shape = self.shape;
        let curve = shape.curve_bytes();
        let base = i * curve;
        // the greatest power of y that row i may have
        let tallest = i.max(r).min(shape.l);
        let above = (tallest + 1) * shape.slot();
        if !zero_between(self.bytes, base + above, base + curve) {
            return false;
        }
        let Some(lead) = self.row_lead(i) else {
            return false;
        };
        r <= i || lead.power == i
    }
}

// Whether all rows are as a turn leaves them while r is the current one.
pub fn sound(rows: &[u8], shape: Shape, r: usize) -> bool
    requires { Fine shape × ((rows_bytes shape ≤ length rows.now) × (r ≤ suc shape.l)) }
    ensures { Decided result (AsLeft shape r rows.now) }
{
    let size = shape.rows_bytes();
    if poly::too_large(&rows[..size], shape.p) {
        return false;
    }
    let rows = Rows { bytes: rows, shape };
    for i in 0..=shape.l {
        if !rows.row_sound(i, r) {
            return false;
        }
    }
    true
}
