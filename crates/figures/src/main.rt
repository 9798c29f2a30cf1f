// Runs the figures of docs/RULES.md, section 18; what it prints is held against stdout. The starred ones are proved besides
// (specs/Figures.antt). A message or a word is given as a decimal number, a digit for each symbol, and a departure's message as it is.
#![tactic(auto)]

use departures::Departure;
use departures::limits::DEPARTURE_SYMBOLS;
use poly::limits::{ALLOWANCE_MOST, WORKING_ROOM};
use rows::Request;
use std::io;

// A name, and the numbers after it. replay prints such numbers for itself: the two share no crate for a few lines.
fn show(rt: &impl Print, name: &str, numbers: &[u8]) -> io::Result<()> {
    rt.print(name)?;
    for number in numbers {
        print!(rt; " {number}")?;
    }
    rt.println("")
}

fn show_departure(rt: &impl Print, name: &str, departure: Departure) -> io::Result<()> {
    let Departure { boat, day, minute } = departure;
    println!(rt; "{name} {boat} {day} {minute}")
}

// The last N digits of a number, as numbers: formats have digits as text alone.
fn digits<const N: usize>(number: u32) -> [u8; N] {
    let mut digits = [0; N];
    let mut rest = number;
    for digit in digits.iter_mut().rev() {
        *digit = (rest % 10) as u8;
        rest /= 10;
    }
    digits
}

fn encode(
    rt: &impl Print,
    p: u8,
    points: &[u8],
    message: &[u8],
    word: &mut [u8],
) -> io::Result<()> {
    let encoded = poly::encode(p, points, message, word);
    show(rt, "  message", message)?;
    show(rt, "  encode", &[poly::outcome(&encoded)])?;
    show(rt, "  word", word)
}

// Start, a turn, finish.
fn interpolate(rt: &impl Print, request: &Request, lent: &mut [u8]) -> io::Result<()> {
    let mut curve = [0u8; 60];
    let started = request.start(lent);
    let note = started.unwrap_or_default();
    let turned = note.turn(lent, ALLOWANCE_MOST);
    let finished = rows::finish(turned.note, lent, &mut curve);
    show(
        rt,
        "  start turn finish",
        &[
            poly::outcome(&started),
            poly::outcome(&turned.outcome),
            poly::outcome(&finished),
        ],
    )?;
    println!(rt; "  updates {}", turned.updates)?;
    let light = finished.unwrap_or_default();
    show(rt, "  weight height", &[light.weight, light.height])?;
    show(rt, "  curve", &curve)
}

fn list(rt: &impl Print, request: &Request, t: u8) -> io::Result<()> {
    let mut room = [0u8; WORKING_ROOM];
    let mut messages = [0u8; 9];
    let listed = near::list(request, t, &mut room, &mut messages);
    let near = listed.unwrap_or_default();
    show(rt, "  list", &[poly::outcome(&listed)])?;
    println!(rt; "  updates {}", near.updates)?;
    show(rt, "  weight count", &[near.weight, near.count])?;
    show(rt, "  messages", &messages)
}

// A message and a received word at the points 1, 2, 3.
fn three(
    rt: &impl Print,
    p: u8,
    message: u32,
    word: u32,
    k: u8,
    m: u8,
    l: u8,
    t: u8,
) -> io::Result<()> {
    let points = [1u8, 2, 3];
    let sent: [u8; 2] = digits(message);
    let received: [u8; 3] = digits(word);
    let mut lent = [0u8; 63];
    let mut encoded = [0u8; 6];
    show(rt, "p k m l t", &[p, k, m, l, t])?;
    encode(rt, p, &points, &sent, &mut encoded)?;
    show(rt, "  received", &received)?;
    let request = Request {
        p,
        points: &points,
        word: &received,
        k,
        m,
        l,
    };
    interpolate(rt, &request, &mut lent)?;
    list(rt, &request, t)
}

// Example 19, where a message has three symbols, at the points 1 to 6. A byte less than the rows take is refused.
fn example_19(rt: &impl Print, message: u32, t: u8) -> io::Result<()> {
    let points = [1u8, 2, 3, 4, 5, 6];
    let sent: [u8; 3] = digits(message);
    let received: [u8; 6] = digits(624442);
    let mut lent = [0u8; 240];
    let mut less = [0u8; 239];
    let mut encoded = [0u8; 6];
    show(rt, "example 19, t", &[t])?;
    encode(rt, 7, &points, &sent, &mut encoded)?;
    show(rt, "  received", &received)?;
    let request = Request {
        p: 7,
        points: &points,
        word: &received,
        k: 3,
        m: 2,
        l: 3,
    };
    interpolate(rt, &request, &mut lent)?;
    interpolate(rt, &request, &mut less)?;
    list(rt, &request, t)
}

// A message of two symbols and a received word over the field of 16, with m = 1 and l = 2.
fn sixteen(
    rt: &impl Print,
    points: &[u8],
    message: &[u8],
    received: &[u8],
    t: u8,
) -> io::Result<()> {
    let mut lent = [0u8; 162];
    let mut encoded = [0u8; 16];
    show(rt, "field 16, t", &[t])?;
    show(rt, "  points", points)?;
    encode(rt, 16, points, message, &mut encoded)?;
    show(rt, "  received", received)?;
    let request = Request {
        p: 16,
        points,
        word: received,
        k: 2,
        m: 1,
        l: 2,
    };
    interpolate(rt, &request, &mut lent)?;
    list(rt, &request, t)
}

// A departure, written and shown; the time is dashes where there is none.
fn depart(rt: &impl Print, boat: u8, day: u16, minute: u16) -> io::Result<()> {
    let departure = Departure { boat, day, minute };
    let mut message = [0u8; DEPARTURE_SYMBOLS];
    let written = departures::write(departure, &mut message);
    let mut time = *b"--:--";
    let shown = departures::show(departure, &mut time);
    show_departure(rt, "boat day minute", departure)?;
    show(
        rt,
        "  write show",
        &[poly::outcome(&written), poly::outcome(&shown)],
    )?;
    show(rt, "  message", &message)?;
    rt.print("  time ")?;
    rt.write_all(&time)?;
    rt.println("")
}

fn read(rt: &impl Print, message: &[u8]) -> io::Result<()> {
    let read = departures::read(message);
    show(rt, "message", message)?;
    show(rt, "  read", &[poly::outcome(&read)])?;
    show_departure(rt, "  boat day minute", read.unwrap_or_default())
}

fn main(rt: HostRuntime) -> io::Result<()> {
    example_19(&rt, 526, 4)?;
    example_19(&rt, 134, 3)?;
    three(&rt, 7, 1, 123, 2, 1, 1, 2)?;
    three(&rt, 7, 1, 1, 2, 1, 1, 3)?;
    three(&rt, 7, 1, 1, 2, 1, 1, 2)?;
    three(&rt, 7, 1, 0, 2, 2, 2, 3)?;
    // the ends of the ranges
    three(&rt, 31, 1, 123, 2, 1, 1, 3)?;
    three(&rt, 33, 1, 123, 2, 1, 1, 3)?;
    three(&rt, 2, 1, 123, 2, 1, 1, 3)?;
    three(&rt, 9, 1, 123, 2, 1, 1, 3)?;
    three(&rt, 7, 1, 123, 1, 1, 1, 3)?;
    three(&rt, 7, 1, 123, 3, 1, 1, 3)?;
    three(&rt, 7, 1, 123, 2, 2, 1, 3)?;
    three(&rt, 7, 1, 123, 2, 1, 9, 3)?;
    three(&rt, 7, 16, 345, 2, 1, 1, 0)?;
    three(&rt, 7, 16, 345, 2, 1, 1, 4)?;
    three(&rt, 7, 16, 654, 2, 1, 1, 3)?;
    three(&rt, 7, 17, 754, 2, 1, 1, 3)?;
    // the field of 16: eight places of 1 + 2x and eight of x, then a point too many, and a symbol that is none
    let all = [0u8, 1, 2, 3, 4, 5, 6, 7, 8, 9, 10, 11, 12, 13, 14, 15];
    let halves = [1u8, 3, 5, 7, 9, 11, 13, 15, 8, 9, 10, 11, 12, 13, 14, 15];
    sixteen(&rt, &all, &[1, 2], &halves, 8)?;
    sixteen(&rt, &all, &[1, 2], &halves, 9)?;
    let more = [0u8, 1, 2, 3, 4, 5, 6, 7, 8, 9, 10, 11, 12, 13, 14, 15, 16];
    sixteen(&rt, &more, &[1, 2], &more, 8)?;
    let larger = [1u8, 3, 5, 7, 9, 11, 13, 15, 8, 9, 10, 11, 12, 13, 14, 16];
    sixteen(&rt, &all, &[1, 16], &larger, 8)?;
    // departures: 24:15, and the ends of the ranges
    depart(&rt, 7, 100, 1455)?;
    depart(&rt, 30, 960, 1799)?;
    depart(&rt, 31, 960, 1799)?;
    depart(&rt, 30, 961, 1799)?;
    depart(&rt, 30, 960, 1800)?;
    read(&rt, &[7, 3, 7, 1, 27, 1])?;
    read(&rt, &[7, 3, 7, 1, 27, 2])?;
    read(&rt, &[7, 3, 7, 1, 15, 31])?;
    read(&rt, &[7, 3, 7, 1, 15])
}
