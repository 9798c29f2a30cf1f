// The lightest row.
ghost use Rattle.std.specs.Prelude.{◌-◌, ◌*◌, ◌≤◌};
ghost use Rattle.field.specs.Symbols.{symbols};
ghost use Rattle.poly.specs.Lent.{Untouched};
ghost use Rattle.curves.specs.Finish.{Lightest, monic};
ghost use Rattle.curves.specs.Curves.{HasHeight};
ghost use Rattle.rows.specs.Bytes.{curve_bytes, HoldsCurve};
ghost use Rattle.rows.specs.Work.{Whole, HandsOver};

use crate::view::Rows;
use field::Symbol;

// A row, by the weight of its leading term.
#[derive(Clone, Copy)]
pub struct Light {
    pub row: usize,
    pub weight: usize,
}

impl Rows<'_> {
    ghost use Rattle.rows.specs.View.{ring_of, row_of};

    // The row with the smallest leading term, where each row leads at its own power of y: of equal weights the first.
    pub fn lightest(&self) -> Light
        requires { Whole self.now.shape self.now.bytes.now }
        ensures { Lightest (ring_of self.now) self.now.shape.u self.now.shape.l (row_of self.now) result.row result.weight }
    {
        let mut lightest = Light {
            row: 0,
            weight: self.lead_of(0).weight,
        };
        for row in 1..=self.shape.l {
            let weight = self.lead_of(row).weight;
            if weight < lightest.weight {
                lightest = Light { row, weight };
            }
        }
        lightest
    }

    // The lightest row times the inverse of its leading coefficient.
    pub fn hand_over(&self, light: Light, curve: &mut [u8])
        requires { HandsOver self.now.shape self.now.bytes.now light.row light.weight curve.old }
        ensures { HoldsCurve self.now.shape curve.new
            (monic (symbols self.now.shape.p) light.row (light.weight - self.now.shape.u * light.row) (row_of self.now light.row))
            × Untouched (curve_bytes self.now.shape) curve.old curve.new }
    {
        let shape = self.shape;
        let p = shape.p;
        let len = shape.curve_bytes();
        let Light { row, weight } = light;
        let from = row * len;
        poly::copy(&mut curve[..len], &self.bytes[from..from + len]);
        let at = shape.place(row, row, weight - shape.u * row);
        let lead = Symbol {
            value: self.bytes[at],
        };
        let inverse = lead.inverse(p);
        field::scale(curve, 0, len, inverse, p);
    }

    // The largest power of y with a nonzero x-polynomial in a row that is not zero: the slot of the row's last nonzero byte.
    pub fn height(&self, row: usize) -> usize
        requires { Whole self.now.shape self.now.bytes.now × (row ≤ self.now.shape.l) }
        ensures { HasHeight (ring_of self.now) (row_of self.now row) result }
    {
        let curve = self.shape.curve_bytes();
        let last = crate::leading::degree_to(self.bytes, row * curve, curve - 1).unwrap();
        last / self.shape.slot()
    }
}
