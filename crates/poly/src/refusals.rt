// The tests that encode and the jobs above it make of their arguments, and encode's refusals in the table's order.
ghost use Rattle.poly.specs.Table.{First, TooLarge, Repeated};
ghost use Rattle.poly.specs.Encode.{encode_table};
ghost use Rattle.poly.specs.Buffers.{Decided};
ghost use Rattle.poly.specs.Refusals.{outcome};

use crate::Refused;

// Whether a byte is p or more.
pub fn too_large(xs: &[u8], p: u8) -> bool
    ensures { Decided result (TooLarge p xs.now) }
{
    xs.iter().any(|x| p <= *x)
}

// Whether two bytes are equal.
pub fn repeated(xs: &[u8]) -> bool
    ensures { Decided result (Repeated xs.now) }
{
    (0..xs.len()).any(|i| xs[..i].contains(&xs[i]))
}

// The first refusal of encode that applies, if any.
pub fn refuse_encode(p: u8, points: &[u8], message: &[u8], word: &[u8]) -> Result<(), Refused>
    ensures { First (encode_table p points.now message.now word.now) (outcome result) }
{
    if !field::is_listed(p) {
        return Err(Refused::NotListed);
    }
    let n = points.len();
    let k = message.len();
    if n < 3 || usize::from(p) < n {
        return Err(Refused::BadCount);
    }
    if k < 2 || n <= k {
        return Err(Refused::BadDegree);
    }
    if too_large(points, p) || too_large(message, p) {
        return Err(Refused::TooLarge);
    }
    if repeated(points) {
        return Err(Refused::Repeated);
    }
    if word.len() < n {
        return Err(Refused::TooShort);
    }
    Ok(())
}
