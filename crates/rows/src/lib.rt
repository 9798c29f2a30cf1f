// The rows of an interpolation in lent bytes: start, turn and finish.
#![tactic(auto)]

ghost use Rattle.std.specs.Prelude.{◌≡◌, ◌<◌, ◌≤◌, length};
ghost use Rattle.rows.specs.Bytes.{shape};
ghost use Rattle.rows.specs.Jobs.{HasStarted, HasTurned, HasFinished, shape_of, at_row, with_note};
ghost use Rattle.rows.specs.Results.{started, turned, made, finished};
ghost use Rattle.rows.specs.Work.{Ready, Went};

mod layout; // layout.rt: how curves and rows lie in bytes
mod refusals; // refusals.rt: the refusals of each job
mod fill; // fill.rt: the rows that a start fills
mod view; // view.rt: rows as their bytes are read
mod leading; // leading.rt: leading terms
mod sound; // sound.rt: whether rows are as a turn leaves them
mod update; // update.rt: one update
mod lightest; // lightest.rt: the lightest row

use poly::Refused;
use update::Crossing;
use view::Rows;

// What is asked: the word received at the points, over the field of p, and the numbers k, m and l.
#[derive(Clone, Copy)]
pub struct Request<'a> {
    pub p: u8,
    pub points: &'a [u8],
    pub word: &'a [u8],
    pub k: u8,
    pub m: u8,
    pub l: u8,
}

// What a driver holds of an interpolation beside its rows; zeros, the default, stand for none.
#[derive(Clone, Copy, Default)]
pub struct Note {
    pub p: u8,
    pub n: u8,
    pub k: u8,
    pub m: u8,
    pub l: u8,
    pub r: u8,
}

// The numbers by which the bytes of rows are read: u = k - 1, and the width W, above which no term weighs.
#[derive(Clone, Copy)]
pub struct Shape {
    pub p: u8,
    pub u: usize,
    pub width: usize,
    pub l: usize,
}

// What a turn hands back: the late 11 has a note and updates beside it.
#[derive(Clone, Copy)]
pub struct Turned {
    pub outcome: Result<(), Refused>,
    pub note: Note,
    pub updates: u16,
}

// What a turn in place hands back.
#[derive(Clone, Copy)]
pub struct Made {
    pub outcome: Result<(), Refused>,
    pub updates: u16,
}

#[derive(Clone, Copy, Default)]
pub struct Finished {
    pub weight: u8,
    pub height: u8,
}

impl Request<'_> {
    // The numbers by which the bytes of its rows are read.
    pub fn shape(&self) -> Shape
        requires numbers { (1 ≤ self.now.k) × (self.now.m ≤ self.now.l) }
        requires count { length self.now.points.now ≤ self.now.p }
        ensures { result ≡ shape self.now.p (length self.now.points.now) self.now.k self.now.m self.now.l }
    {
        Shape::of(self.p, self.points.len() as u8, self.k, self.m, self.l)
    }

    // h and e, then the rows of corollary 14.
    pub fn start(&self, rows: &mut [u8]) -> Result<Note, Refused>
        ensures { HasStarted self.now.p self.now.points.now self.now.word.now self.now.k self.now.m self.now.l
            rows.old rows.new (started result) }
    {
        self.refuse_start(rows)?;
        let shape = self.shape();
        let work = poly::interpolate(self.points, self.word, self.p);
        fill::fill(rows, shape, usize::from(self.m), &work);
        Ok(Note {
            p: self.p,
            n: self.points.len() as u8,
            k: self.k,
            m: self.m,
            l: self.l,
            r: 1,
        })
    }
}

impl Note {
    // The numbers by which the bytes of its rows are read.
    fn shape(self) -> Shape
        requires { (1 ≤ self.k) × (self.m ≤ self.l) }
        ensures { result ≡ shape_of self }
    {
        Shape::of(self.p, self.n, self.k, self.m, self.l)
    }

    // A turn: at most `allowance` updates by the rule, from the note's row on.
    pub fn turn(self, rows: &mut [u8], allowance: u16) -> Turned
        ensures { HasTurned self allowance rows.old rows.new (turned result) }
    {
        if let Err(refused) = refusals::refuse_turn(self, rows) {
            return Turned {
                outcome: Err(refused),
                note: self,
                updates: 0,
            };
        }
        go(self, rows, allowance)
    }
}

// The same turn over the driver's own note.
pub fn turn_in_place(note: &mut Note, rows: &mut [u8], allowance: u16) -> Made
    ensures { HasTurned note.old allowance rows.old rows.new (with_note (made result) note.new) }
{
    let t = Note::turn(*note, rows, allowance);
    *note = t.note;
    Made {
        outcome: t.outcome,
        updates: t.updates,
    }
}

// The note with another current row.
fn at_row(note: Note, r: usize) -> Note
    requires { r < 256 }
    ensures { result ≡ at_row note r }
{
    Note { r: r as u8, ..note }
}

// The rule, on rows that passed the entry test.
fn go(note: Note, rows: &mut [u8], allowance: u16) -> Turned
    requires { Ready note rows.old }
    ensures { Went note allowance rows.old rows.new (turned result) }
{
    let shape = note.shape();
    let l = shape.l;
    let mut r = usize::from(note.r);
    let mut left = allowance;
    // no range counts these passes: one that makes an update leaves r as it is
    while r <= l {
        let held = Rows { bytes: rows, shape };
        let lead = held.lead_of(r);
        let s = lead.power;
        let w = lead.weight;
        if s == r {
            r += 1;
        } else {
            if left == 0 {
                return Turned {
                    outcome: Ok(()),
                    note: at_row(note, r),
                    updates: allowance,
                };
            }
            let v = held.lead_of(s).weight;
            let crossing = Crossing { r, w, s, v };
            if crossing.vanishes(&held) {
                return Turned {
                    outcome: Err(Refused::NotAsLeft),
                    note: at_row(note, r),
                    updates: allowance - left,
                };
            }
            crossing.update(rows, shape);
            left -= 1;
        }
    }
    Turned {
        outcome: Ok(()),
        note: at_row(note, r),
        updates: allowance - left,
    }
}

// The lightest row, made monic.
pub fn finish(note: Note, rows: &[u8], curve: &mut [u8]) -> Result<Finished, Refused>
    ensures { HasFinished note rows.now curve.old curve.new (finished result) }
{
    refusals::refuse_finish(note, rows, curve)?;
    let shape = note.shape();
    let held = Rows { bytes: rows, shape };
    let light = held.lightest();
    held.hand_over(light, curve);
    Ok(Finished {
        weight: light.weight as u8,
        height: held.height(light.row) as u8,
    })
}
