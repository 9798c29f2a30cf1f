// The refusals of start, turn and finish, each in its table's order.
ghost use Rattle.poly.specs.Table.{First, BadHeights};
ghost use Rattle.poly.specs.Buffers.{Decided};
ghost use Rattle.poly.specs.Refusals.{outcome};
ghost use Rattle.rows.specs.Jobs.{request_table, start_table, turn_table, finish_table, BadNote};

use crate::{Note, Request};
use poly::Refused;
use poly::limits::{HEIGHT_MOST, MULTIPLICITY_MOST};

// Whether m or l is out of its range.
fn bad_heights(m: u8, l: u8) -> bool
    ensures { Decided result (BadHeights m l) }
{
    m < 1 || MULTIPLICITY_MOST < m || l < m || HEIGHT_MOST < l
}

// Whether 1, 2, 4 or 5 applies to the note, or r is outside 1 to l + 1.
fn bad_note(note: Note) -> bool
    ensures { Decided result (BadNote note) }
{
    !field::is_listed(note.p)
        || note.n < 3
        || note.p < note.n
        || note.k < 2
        || note.n <= note.k
        || bad_heights(note.m, note.l)
        || note.r < 1
        || note.l + 1 < note.r
}

impl Request<'_> {
    // The first of the refusals 1 to 7 that applies, if any.
    pub fn refuse(&self) -> Result<(), Refused>
        ensures { First (request_table self.now.p self.now.points.now self.now.word.now self.now.k self.now.m self.now.l)
            (outcome result) }
    {
        if !field::is_listed(self.p) {
            return Err(Refused::NotListed);
        }
        let n = self.points.len();
        if n < 3 || usize::from(self.p) < n {
            return Err(Refused::BadCount);
        }
        if self.word.len() != n {
            return Err(Refused::BadLength);
        }
        if self.k < 2 || n <= usize::from(self.k) {
            return Err(Refused::BadDegree);
        }
        if bad_heights(self.m, self.l) {
            return Err(Refused::BadHeights);
        }
        if poly::too_large(self.points, self.p) || poly::too_large(self.word, self.p) {
            return Err(Refused::TooLarge);
        }
        if poly::repeated(self.points) {
            return Err(Refused::Repeated);
        }
        Ok(())
    }

    // The first refusal of start that applies, if any.
    pub(crate) fn refuse_start(&self, rows: &[u8]) -> Result<(), Refused>
        ensures { First (start_table self.now.p self.now.points.now self.now.word.now self.now.k self.now.m self.now.l rows.now)
            (outcome result) }
    {
        self.refuse()?;
        if rows.len() < self.shape().rows_bytes() {
            return Err(Refused::TooShort);
        }
        Ok(())
    }
}

// The first refusal of turn that applies, if any.
pub fn refuse_turn(note: Note, rows: &[u8]) -> Result<(), Refused>
    ensures { First (turn_table note rows.now) (outcome result) }
{
    if bad_note(note) {
        return Err(Refused::BadNote);
    }
    let shape = note.shape();
    if rows.len() < shape.rows_bytes() {
        return Err(Refused::TooShort);
    }
    if !crate::sound::sound(rows, shape, usize::from(note.r)) {
        return Err(Refused::NotAsLeft);
    }
    Ok(())
}

// The first refusal of finish that applies, if any.
pub fn refuse_finish(note: Note, rows: &[u8], curve: &[u8]) -> Result<(), Refused>
    ensures { First (finish_table note rows.now curve.now) (outcome result) }
{
    if bad_note(note) {
        return Err(Refused::BadNote);
    }
    let shape = note.shape();
    if rows.len() < shape.rows_bytes() || curve.len() < shape.curve_bytes() {
        return Err(Refused::TooShort);
    }
    if note.r < note.l + 1 {
        return Err(Refused::Unfinished);
    }
    if !crate::sound::sound(rows, shape, usize::from(note.r)) {
        return Err(Refused::NotAsLeft);
    }
    Ok(())
}
