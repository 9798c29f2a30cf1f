// The refusals of the writer, the reader and the printer, in the table's order.
ghost use Rattle.poly.specs.Buffers.{Decided};
ghost use Rattle.poly.specs.Refusals.{outcome};
ghost use Rattle.poly.specs.Table.{First};
ghost use Rattle.departures.specs.Departures.{InRange, IsDeparture};
ghost use Rattle.departures.specs.Jobs.{put_table, read_table};

use crate::limits::{BOAT_MOST, DAY_MOST, DEPARTURE_FIELD, DEPARTURE_SYMBOLS, MINUTE_MOST};
use crate::{Departure, spelling};
use poly::Refused;

fn in_range(departure: Departure) -> bool
    ensures { Decided result (InRange departure) }
{
    departure.boat <= BOAT_MOST && departure.day <= DAY_MOST && departure.minute <= MINUTE_MOST
}

// Whether six symbols spell a departure.
fn is_departure(message: &[u8]) -> bool
    ensures { Decided result (IsDeparture message.now) }
{
    message.len() == DEPARTURE_SYMBOLS
        && !poly::too_large(message, DEPARTURE_FIELD)
        && spelling::departure_of(message).minute <= MINUTE_MOST
}

// The first refusal that applies to putting a text of `size` bytes for a departure, if any.
pub fn refuse_put(departure: Departure, size: usize, room: &[u8]) -> Result<(), Refused>
    ensures { First (put_table departure size room.now) (outcome result) }
{
    if !in_range(departure) {
        return Err(Refused::NoDeparture);
    }
    if room.len() < size {
        return Err(Refused::TooShort);
    }
    Ok(())
}

// The reader's refusal, if it applies.
pub fn refuse_read(message: &[u8]) -> Result<(), Refused>
    ensures { First (read_table message.now) (outcome result) }
{
    if is_departure(message) {
        Ok(())
    } else {
        Err(Refused::NoDeparture)
    }
}
