// The messages near a received word, in one call.
#![tactic(auto)]

ghost use Rattle.std.specs.Prelude.{◌≤◌, length};
ghost use Rattle.poly.specs.Table.{First};
ghost use Rattle.rows.specs.Bytes.{shape, curve_bytes};
ghost use Rattle.rows.specs.Jobs.{start_table};
ghost use Rattle.near.specs.Job.{HasListed};
ghost use Rattle.near.specs.Results.{listed};
ghost use Rattle.near.specs.Work.{FoundCurve};

use poly::Refused;
use poly::limits::{ALLOWANCE_MOST, CURVE_MOST, WORKING_ROOM};
use rows::Request;

mod refusals; // refusals.rt: the refusals of the list job
mod search; // search.rt: the messages found on the curve, symbol by symbol

#[derive(Clone, Copy, Default)]
pub struct Near {
    pub count: u8,
    pub updates: u16,
    pub weight: u8,
}

// What interpolation hands over beside the curve.
#[derive(Clone, Copy)]
pub struct Weighed {
    pub updates: u16,
    pub weight: u8,
}

// The curve of demand 2: start, one turn with more than all updates ever needed, finish.
fn interpolate(request: &Request, room: &mut [u8], curve: &mut [u8]) -> Weighed
    requires first { First (start_table request.now.p request.now.points.now request.now.word.now request.now.k request.now.m request.now.l
        room.old) 0 }
    requires curve_room { curve_bytes (shape request.now.p (length request.now.points.now) request.now.k request.now.m request.now.l)
        ≤ length curve.old }
    ensures { FoundCurve request.now.p request.now.points.now request.now.word.now request.now.k request.now.m request.now.l
        room.old room.new curve.old curve.new result }
{
    let note = request.start(room).unwrap();
    let turned = note.turn(room, ALLOWANCE_MOST);
    let finished = rows::finish(turned.note, room, curve).unwrap();
    Weighed {
        updates: turned.updates,
        weight: finished.weight,
    }
}

// The list job: the curve, then, where m t is above its weight, the messages found on it.
pub fn list(request: &Request, t: u8, room: &mut [u8], messages: &mut [u8]) -> Result<Near, Refused>
    ensures { HasListed request.now.p request.now.points.now request.now.word.now request.now.k request.now.m request.now.l t
        room.old room.new messages.old messages.new (listed result) }
{
    refusals::refuse_list(request, t, room, messages)?;
    let mut curve = [0u8; CURVE_MOST];
    let weighed = interpolate(request, room, &mut curve);
    poly::clear(room, WORKING_ROOM);
    if u16::from(request.m) * u16::from(t) <= u16::from(weighed.weight) {
        return Err(Refused::Unvouched);
    }
    let count = search::run(request, t, &mut curve, messages);
    Ok(Near {
        count,
        updates: weighed.updates,
        weight: weighed.weight,
    })
}
