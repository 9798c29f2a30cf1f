// Rows as their bytes are read.
ghost use Rattle.rows.specs.Work.{Bytes};

use crate::Shape;

// The bytes of rows, with the numbers by which they are read.
#[derive(Clone, Copy)]
pub struct Rows<'a> {
    pub bytes: &'a [u8],
    pub shape: Shape,
    ghost held: { Bytes shape bytes.now },
}
