// A departure's six symbols: the boat, then the digits of day and minute in the base of the field, high first.
ghost use Rattle.std.specs.Prelude.{◌≡◌, ◌≤◌, ◌<◌, length};
ghost use Rattle.std.proofs.lemmas.List.Edits.{sets};
ghost use Rattle.near.specs.Lists.{Spelt};
ghost use Rattle.departures.specs.Departures.{InRange, six_symbols, with_digit, departure_of, departure_field, departure_symbols};

use crate::Departure;
use crate::limits::{DEPARTURE_FIELD, DEPARTURE_SYMBOLS};

// A constant's value calls no function, so `as` makes the wider number.
const BASE: u16 = DEPARTURE_FIELD as u16;

pub fn put_symbols(departure: Departure, message: &mut [u8])
    requires in_range { InRange departure }
    requires room { departure_symbols ≤ length message.old }
    ensures { message.new ≡ sets message.old 0 (six_symbols departure) }
{
    let Departure { boat, day, minute } = departure;
    message[..DEPARTURE_SYMBOLS].copy_from_slice(&[
        boat,
        (day / BASE) as u8,
        (day % BASE) as u8,
        (minute / BASE / BASE) as u8,
        (minute / BASE % BASE) as u8,
        (minute % BASE) as u8,
    ]);
}

// The number that two symbols spell, high first.
fn two_symbols(high: u8, low: u8) -> u16
    requires { (high < departure_field) × (low < departure_field) }
    ensures { result ≡ with_digit high low }
{
    u16::from(high) * BASE + u16::from(low)
}

// The number that three symbols spell.
fn three_symbols(high: u8, middle: u8, low: u8) -> u16
    requires { (high < departure_field) × ((middle < departure_field) × (low < departure_field)) }
    ensures { result ≡ with_digit (with_digit high middle) low }
{
    two_symbols(high, middle) * BASE + u16::from(low)
}

// The departure that six symbols spell. No conversion of a type: whether they spell one is `read`'s to say.
pub fn departure_of(message: &[u8]) -> Departure
    requires { Spelt departure_field departure_symbols message.now }
    ensures { result ≡ departure_of message.now }
{
    Departure {
        boat: message[0],
        day: two_symbols(message[1], message[2]),
        minute: three_symbols(message[3], message[4], message[5]),
    }
}
