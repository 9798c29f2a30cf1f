// How curves and rows lie in bytes: a slot is width + 1 bytes, a curve l + 1 slots, the rows l + 1 curves. A shape is had of any request, so
// those that count with its numbers ask that they are fine.

ghost use Rattle.std.specs.Prelude.{◌≡◌, ◌≤◌};
ghost use Rattle.rows.specs.Bytes.{shape, slot as slot_of, curve_bytes, rows_bytes, place as place_of};
ghost use Rattle.rows.specs.Work.{Fine, Placed};

use crate::Shape;

impl Shape {
    pub fn of(p: u8, n: u8, k: u8, m: u8, l: u8) -> Shape
        requires { (1 ≤ k) × (m ≤ l) }
        ensures { result ≡ shape p n k m l }
    {
        let u = usize::from(k) - 1;
        let m = usize::from(m);
        let l = usize::from(l);
        Shape {
            p,
            u,
            width: m * usize::from(n) + (l - m) * u,
            l,
        }
    }

    pub fn slot(self) -> usize
        requires { Fine self }
        ensures { result ≡ slot_of self }
    {
        self.width + 1
    }

    pub fn curve_bytes(self) -> usize
        requires { Fine self }
        ensures { result ≡ curve_bytes self }
    {
        (self.l + 1) * self.slot()
    }

    pub fn rows_bytes(self) -> usize
        requires { Fine self }
        ensures { result ≡ rows_bytes self }
    {
        (self.l + 1) * self.curve_bytes()
    }

    // Where the coefficient of x^e y^j of row i stands.
    pub fn place(self, i: usize, j: usize, e: usize) -> usize
        requires { Placed self i j e }
        ensures { result ≡ place_of self i j e }
    {
        i * self.curve_bytes() + j * self.slot() + e
    }
}
