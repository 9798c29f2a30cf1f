// One call to the library for each job, and the line that tells what came back. Where that can't be written the buffers are as the job left
// them, and the error ends the program.
ghost use Rattle.rows.specs.Jobs.{HasTurned};
ghost use Rattle.rows.specs.Results.{turned};

use crate::printing::{Departing, Noted, Spaced, sum};
use departures::{Departure, Heard};
use poly::outcome;
use rows::{Note, Request, Turned};
use std::io;

pub fn encode(
    rt: &impl Print,
    p: u8,
    points: &[u8],
    message: &[u8],
    word: &mut [u8],
) -> io::Result<()> {
    let encoded = poly::encode(p, points, message, word);
    println!(rt; "encode {} word{}", outcome(&encoded), Spaced(word))
}

pub fn start(rt: &impl Print, request: &Request, rows: &mut [u8]) -> io::Result<Note> {
    let started = request.start(rows);
    let note = started.unwrap_or_default();
    println!(rt;
        "start {} {} rows {}",
        outcome(&started),
        Noted(note),
        sum(rows)
    )?;
    Ok(note)
}

fn print_turned(rt: &impl Print, name: &str, turned: Turned, rows: &[u8]) -> io::Result<()> {
    println!(rt;
        "{name} {} {} updates {} rows {}",
        outcome(&turned.outcome),
        Noted(turned.note),
        turned.updates,
        sum(rows)
    )
}

pub fn turn(rt: &impl Print, note: Note, rows: &mut [u8], allowance: u16) -> io::Result<Note> {
    let turned = note.turn(rows, allowance);
    print_turned(rt, "turn", turned, rows)?;
    Ok(turned.note)
}

// The turn in place over a note of one's own, handed over and back by value.
fn own_turn(mut note: Note, rows: &mut [u8], allowance: u16) -> Turned
    ensures { HasTurned note allowance rows.old rows.new (turned result) }
{
    let made = rows::turn_in_place(&mut note, rows, allowance);
    Turned {
        outcome: made.outcome,
        note,
        updates: made.updates,
    }
}

pub fn turn_in_place(
    rt: &impl Print,
    note: Note,
    rows: &mut [u8],
    allowance: u16,
) -> io::Result<Note> {
    let turned = own_turn(note, rows, allowance);
    print_turned(rt, "turn_in_place", turned, rows)?;
    Ok(turned.note)
}

pub fn finish(rt: &impl Print, note: Note, rows: &[u8], curve: &mut [u8]) -> io::Result<()> {
    let finished = rows::finish(note, rows, curve);
    let light = finished.unwrap_or_default();
    println!(rt;
        "finish {} weight {} height {} curve {}",
        outcome(&finished),
        light.weight,
        light.height,
        sum(curve)
    )
}

pub fn list(
    rt: &impl Print,
    request: &Request,
    t: u8,
    room: &mut [u8],
    messages: &mut [u8],
) -> io::Result<()> {
    let listed = near::list(request, t, room, messages);
    let near = listed.unwrap_or_default();
    println!(rt;
        "list {} count {} updates {} weight {} room {} messages{}",
        outcome(&listed),
        near.count,
        near.updates,
        near.weight,
        sum(room),
        Spaced(messages)
    )
}

// What `listing` prints for the text.
pub fn program(rt: &impl Print, text: &[u8]) -> io::Result<()> {
    let mut out = [0u8; 2048];
    let len = program::answer(text, &mut out);
    println!(rt; "program {len}")?;
    rt.write_all(&out[..len])
}

pub fn write(rt: &impl Print, departure: Departure, message: &mut [u8]) -> io::Result<()> {
    let written = departures::write(departure, message);
    println!(rt; "write {} message{}", outcome(&written), Spaced(message))
}

pub fn read(rt: &impl Print, message: &[u8]) -> io::Result<()> {
    let read = departures::read(message);
    let departure = read.unwrap_or_default();
    println!(rt; "read {} {}", outcome(&read), Departing(departure))
}

pub fn show(rt: &impl Print, departure: Departure, text: &mut [u8]) -> io::Result<()> {
    let shown = departures::show(departure, text);
    println!(rt; "show {} text{}", outcome(&shown), Spaced(text))
}

// What was heard, in the numbers of the calls for C: zeros beside a refusal, and where there is not one departure.
pub fn hear(
    rt: &impl Print,
    points: &[u8],
    word: &[u8],
    m: u8,
    l: u8,
    t: u8,
    room: &mut [u8],
) -> io::Result<()> {
    let heard = departures::hear(points, word, m, l, t, room);
    let (count, departure) = match heard {
        Ok(Heard::One(departure)) => (1, departure),
        Ok(Heard::Several) => (2, Departure::default()),
        Ok(Heard::None) | Err(_) => (0, Departure::default()),
    };
    println!(rt;
        "hear {} count {count} {} room {}",
        outcome(&heard),
        Departing(departure),
        sum(room)
    )
}
