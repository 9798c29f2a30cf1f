// Departures as messages: a boat, a service day and a minute of it in six symbols, and the board's question which one was sent. The day ends
// when the last boat ties up, so no minute is wrapped at 1,440.
#![tactic(auto)]

ghost use Rattle.poly.specs.Refusals.{outcome};
ghost use Rattle.departures.specs.Jobs.{WritesDeparture, ReadsDeparture, ShowsDeparture};
ghost use Rattle.departures.specs.Hearing.{HasHeard};
ghost use Rattle.departures.specs.Results.{reading, heard};

use limits::{DEPARTURE_FIELD, DEPARTURE_SYMBOLS, TIME_BYTES};
use poly::Refused;
use poly::limits::HEIGHT_MOST;
use rows::Request;

mod clock; // clock.rt: the time that a departure prints
pub mod limits; // limits.rt: the numbers of a departure
mod refusals; // refusals.rt: the refusals of the writer, the reader and the printer
mod spelling; // spelling.rt: a departure's six symbols

#[derive(Clone, Copy, PartialEq, Eq, Debug, Default)]
pub struct Departure {
    pub boat: u8,
    pub day: u16,
    pub minute: u16,
}

// What a board hears.
#[derive(Clone, Copy)]
pub enum Heard {
    None,
    One(Departure),
    Several,
}

// The departure's six symbols, at the front of the message.
pub fn write(departure: Departure, message: &mut [u8]) -> Result<(), Refused>
    ensures { WritesDeparture departure message.old message.new (outcome result) }
{
    refusals::refuse_put(departure, DEPARTURE_SYMBOLS, message)?;
    spelling::put_symbols(departure, message);
    Ok(())
}

pub fn read(message: &[u8]) -> Result<Departure, Refused>
    ensures { ReadsDeparture message.now (reading result) }
{
    refusals::refuse_read(message)?;
    Ok(spelling::departure_of(message))
}

// The departure's time of the service day, at the front of the text: 24:15, never 00:15.
pub fn show(departure: Departure, text: &mut [u8]) -> Result<(), Refused>
    ensures { ShowsDeparture departure text.old text.new (outcome result) }
{
    refusals::refuse_put(departure, TIME_BYTES, text)?;
    clock::put_clock(departure.minute, text);
    Ok(())
}

// The departure that is alone near a received word.
pub fn hear(
    points: &[u8],
    word: &[u8],
    m: u8,
    l: u8,
    t: u8,
    room: &mut [u8],
) -> Result<Heard, Refused>
    ensures { HasHeard points.now word.now m l t room.old room.new (heard result) }
{
    let request = Request {
        p: DEPARTURE_FIELD,
        points,
        word,
        k: DEPARTURE_SYMBOLS as u8,
        m,
        l,
    };
    // a length calls no function, hence `as`
    let mut messages = [0u8; HEIGHT_MOST as usize * DEPARTURE_SYMBOLS];
    let near = near::list(&request, t, room, &mut messages)?;
    match near.count {
        0 => Ok(Heard::None),
        1 => Ok(Heard::One(read(&messages[..DEPARTURE_SYMBOLS])?)),
        _ => Ok(Heard::Several),
    }
}
