// A departure's way from the writer to the board: written, encoded, disturbed by the radio, heard and printed.
#![tactic(auto)]

ghost use Rattle.std.specs.Prelude.{◌≡◌, ◌≤◌, ◌<◌, length};
ghost use Rattle.departures.specs.Departures.{InRange, departure_field};
ghost use Rattle.departures.specs.Hearing.{Hears};
ghost use Rattle.departures.specs.Results.{heard};
ghost use Rattle.sailing.specs.Voyage.{AllPoints, Disturbs, Sailed, disturbed_most};

use departures::limits::{DEPARTURE_FIELD, DEPARTURE_SYMBOLS, TIME_BYTES};
use departures::{Departure, Heard};
use poly::Refused;
use poly::limits::WORKING_ROOM;
use std::{array, io};

// As many points as the field has symbols. A constant's value calls no function, hence `as`.
const POINTS: usize = DEPARTURE_FIELD as usize;

// How many symbols the radio gets wrong.
const DISTURBED_MOST: usize = 15;

// What a board asks with: m, l, and as t the agreements that are left.
const M: u8 = 2;

const L: u8 = 4;

const WANTED: u8 = DEPARTURE_FIELD - DISTURBED_MOST as u8;

// Each symbol as a point: 0, 1, .., 30.
fn all_points() -> [u8; POINTS]
    ensures { AllPoints result }
{
    array::from_fn(|i| i as u8)
}

// Another symbol: the radio got this one wrong.
fn wrong(symbol: u8) -> u8
    ensures { (result ≡ symbol → ⊥) × (result < departure_field) }
{
    symbol.wrapping_add(1) % DEPARTURE_FIELD
}

// The first `count` symbols come out wrong, and no other: of those too the contract speaks, so the whole word is lent.
fn disturb(word: &mut [u8], count: usize)
    requires { count ≤ length word.old }
    ensures { Disturbs count word.old word.new }
{
    for symbol in &mut word[..count] {
        *symbol = wrong(*symbol);
    }
}

// What a board hears of the departure where so many of its symbols were disturbed.
fn sail(departure: Departure, count: usize) -> Result<Heard, Refused>
    requires in_range { InRange departure }
    requires count_bound { count ≤ departure_field }
    ensures sailed { Sailed departure count (heard result) }
    ensures hears { count ≤ disturbed_most → Hears departure (heard result) }
{
    let mut message = [0u8; DEPARTURE_SYMBOLS];
    departures::write(departure, &mut message).unwrap();
    let points = all_points();
    let mut word = [0u8; POINTS];
    poly::encode(DEPARTURE_FIELD, &points, &message, &mut word).unwrap();
    disturb(&mut word, count);
    let mut room = [0u8; WORKING_ROOM];
    departures::hear(&points, &word, M, L, WANTED, &mut room)
}

fn print_refused(rt: &impl Print, refused: Refused) -> io::Result<()> {
    println!(rt; "number={}", u8::from(refused))
}

fn print_departure(rt: &impl Print, departure: Departure) -> io::Result<()> {
    let mut time = [0u8; TIME_BYTES];
    if let Err(refused) = departures::show(departure, &mut time) {
        return print_refused(rt, refused);
    }
    print!(rt; "boat={}\nday={}\ntime=", departure.boat, departure.day)?;
    rt.write_all(&time)?;
    rt.println("")
}

fn tell(rt: &impl Print, heard: Result<Heard, Refused>) -> io::Result<()> {
    match heard {
        Ok(Heard::None) => rt.println("none"),
        Ok(Heard::One(departure)) => print_departure(rt, departure),
        Ok(Heard::Several) => rt.println("several"),
        Err(refused) => print_refused(rt, refused),
    }
}

fn main(rt: HostRuntime) -> io::Result<()> {
    let last_boat = Departure {
        boat: 7,
        day: 100,
        minute: 1455,
    };
    tell(&rt, sail(last_boat, DISTURBED_MOST))
}
