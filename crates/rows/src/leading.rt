// Leading terms.
ghost use Rattle.std.specs.Prelude.{◌+◌, ◌<◌, ◌≤◌, length};
ghost use Rattle.curves.specs.Curves.{Zero, Lead};
ghost use Rattle.poly.specs.Buffers.{Decided};
ghost use Rattle.rows.specs.Work.{DegreeTo, Heavier, FoundLead, ZeroBetween};

use crate::view::Rows;
use std::array;

// A leading term, by its weight and its power of y.
#[derive(Clone, Copy)]
pub struct LeadingTerm {
    pub weight: usize,
    pub power: usize,
}

// Whether the eight bytes from `from` on are zero, as one number.
fn eight_zero(rows: &[u8], from: usize) -> bool
    requires { from + 8 ≤ length rows.now }
    ensures { Decided result (ZeroBetween rows.now from (from + 8)) }
{
    let word = array::from_fn(|i| rows[from + i]);
    u64::from_le_bytes(word) == 0
}

// How many coefficients, of those to x^top that stand at `at`, are left when those above that are zero are taken off, eight at a time.
fn size_at_most(rows: &[u8], at: usize, top: usize) -> usize
    requires { at + top < length rows.now }
    ensures { (result ≤ top + 1) × ZeroBetween rows.now (at + result) (at + top + 1) }
{
    let size = top + 1;
    for i in 0..size / 8 {
        let left = size - 8 * i;
        if !eight_zero(rows, at + left - 8) {
            return left;
        }
    }
    size % 8
}

// The degree of the x-polynomial whose coefficients to x^top stand at `at`, unless they are all zero.
pub fn degree_to(rows: &[u8], at: usize, top: usize) -> Option<usize>
    requires { at + top < length rows.now }
    ensures { DegreeTo rows.now at top result }
{
    for degree in (0..size_at_most(rows, at, top)).rev() {
        if rows[at + degree] != 0 {
            return Some(degree);
        }
    }
    None
}

// What was found, or the term where that weighs more.
fn heavier(found: Option<LeadingTerm>, term: LeadingTerm) -> LeadingTerm
    ensures { Heavier term found result }
{
    match found {
        Some(lead) if term.weight <= lead.weight => lead,
        _ => term,
    }
}

impl Rows<'_> {
    ghost use Rattle.rows.specs.View.{ring_of, row_of, Light};

    // The leading term of row i, whose terms above the width are zero. Powers of y go down, so that of equal weights the larger power stays.
    pub fn row_lead(&self, i: usize) -> Option<LeadingTerm>
        requires { (i ≤ self.now.shape.l) × Light self.now i }
        ensures { FoundLead (ring_of self.now) self.now.shape.u (row_of self.now i) result }
    {
        let shape = self.shape;
        let base = i * shape.curve_bytes();
        let slot = shape.slot();
        let mut found = None;
        for power in (0..=shape.l).rev() {
            let lift = shape.u * power;
            if let Some(degree) = degree_to(self.bytes, base + power * slot, shape.width - lift) {
                let weight = degree + lift;
                found = Some(heavier(found, LeadingTerm { weight, power }));
            }
        }
        found
    }

    // The leading term of row i, which is not zero.
    pub fn lead_of(&self, i: usize) -> LeadingTerm
        requires row { (i ≤ self.now.shape.l) × Light self.now i }
        requires nonzero { Zero (ring_of self.now) (row_of self.now i) → ⊥ }
        ensures { Lead (ring_of self.now) self.now.shape.u result.weight result.power (row_of self.now i) }
    {
        self.row_lead(i).unwrap()
    }
}
