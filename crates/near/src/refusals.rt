// The refusals of the list job, in its table's order.
ghost use Rattle.poly.specs.Table.{First};
ghost use Rattle.poly.specs.Refusals.{outcome};
ghost use Rattle.near.specs.Job.{list_table};

use poly::Refused;
use poly::limits::WORKING_ROOM;
use rows::Request;

// The first of the refusals 1 to 9 that applies, if any.
pub fn refuse_list(request: &Request, t: u8, room: &[u8], messages: &[u8]) -> Result<(), Refused>
    ensures { First (list_table request.now.p request.now.points.now request.now.word.now request.now.k request.now.m request.now.l
        t room.now messages.now) (outcome result) }
{
    request.refuse()?;
    if t < 1 || request.points.len() < usize::from(t) {
        return Err(Refused::BadAgreements);
    }
    let size = usize::from(request.l) * usize::from(request.k);
    if room.len() < WORKING_ROOM || messages.len() < size {
        return Err(Refused::TooShort);
    }
    Ok(())
}
