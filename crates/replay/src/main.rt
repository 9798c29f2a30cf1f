// Replays stored calls: reads them from standard input, makes each call to the library and prints what came back. Its files stdin and stdout
// are made by `vectors` of checks/second (see its README.md), so what is printed is held to the second program's answers. The rows and the note
// are kept from one call to the next, as a board keeps them.
#![tactic(auto)]

use calls::{Call, ROOM, Room};
use departures::Departure;
use rows::{Note, Request};
use std::io;
use std::io::Stdin;

mod calls; // calls.rt: the stored calls, read from standard input
mod jobs; // jobs.rt: one call to the library, and its line
mod printing; // printing.rt: what lines are made of

// Rooms of 256 and of 65,536 bytes hold whatever number of one byte or of two a header gives.
fn encode(rt: &impl Print, stdin: Stdin, p: u8, n: u8, count: u8, lent: u16) -> io::Result<()> {
    let mut points = [0u8; 256];
    let points = calls::read(stdin, &mut points[..usize::from(n)])?;
    let mut message = [0u8; 256];
    let message = calls::read(stdin, &mut message[..usize::from(count)])?;
    let mut word = ROOM;
    jobs::encode(rt, p, points, message, &mut word[..usize::from(lent)])
}

fn start(
    rt: &impl Print,
    stdin: Stdin,
    p: u8,
    n: u8,
    count: u8,
    k: u8,
    m: u8,
    l: u8,
    lent: u16,
    rows: &mut Room,
) -> io::Result<Note> {
    let mut points = [0u8; 256];
    let points = calls::read(stdin, &mut points[..usize::from(n)])?;
    let mut word = [0u8; 256];
    let word = calls::read(stdin, &mut word[..usize::from(count)])?;
    *rows = ROOM;
    let rows = &mut rows[..usize::from(lent)];
    let request = Request {
        p,
        points,
        word,
        k,
        m,
        l,
    };
    jobs::start(rt, &request, rows)
}

fn finish(rt: &impl Print, note: Note, rows: &[u8], curve: u16) -> io::Result<()> {
    let mut room = ROOM;
    jobs::finish(rt, note, rows, &mut room[..usize::from(curve)])
}

fn list(
    rt: &impl Print,
    stdin: Stdin,
    p: u8,
    n: u8,
    count: u8,
    k: u8,
    m: u8,
    l: u8,
    t: u8,
    lent: u16,
    messages: u16,
) -> io::Result<()> {
    let mut points = [0u8; 256];
    let points = calls::read(stdin, &mut points[..usize::from(n)])?;
    let mut word = [0u8; 256];
    let word = calls::read(stdin, &mut word[..usize::from(count)])?;
    let mut working = ROOM;
    let working = &mut working[..usize::from(lent)];
    let mut listed = ROOM;
    let listed = &mut listed[..usize::from(messages)];
    let request = Request {
        p,
        points,
        word,
        k,
        m,
        l,
    };
    jobs::list(rt, &request, t, working, listed)
}

fn program(rt: &impl Print, stdin: Stdin, len: u16) -> io::Result<()> {
    let mut text = [0u8; 65536];
    let text = calls::read(stdin, &mut text[..usize::from(len)])?;
    jobs::program(rt, text)
}

fn write(rt: &impl Print, departure: Departure, lent: u16) -> io::Result<()> {
    let mut message = ROOM;
    jobs::write(rt, departure, &mut message[..usize::from(lent)])
}

fn read(rt: &impl Print, stdin: Stdin, count: u8) -> io::Result<()> {
    let mut message = [0u8; 256];
    let message = calls::read(stdin, &mut message[..usize::from(count)])?;
    jobs::read(rt, message)
}

fn show(rt: &impl Print, departure: Departure, lent: u16) -> io::Result<()> {
    let mut text = ROOM;
    jobs::show(rt, departure, &mut text[..usize::from(lent)])
}

fn hear(
    rt: &impl Print,
    stdin: Stdin,
    n: u8,
    count: u8,
    m: u8,
    l: u8,
    t: u8,
    lent: u16,
) -> io::Result<()> {
    let mut points = [0u8; 256];
    let points = calls::read(stdin, &mut points[..usize::from(n)])?;
    let mut word = [0u8; 256];
    let word = calls::read(stdin, &mut word[..usize::from(count)])?;
    let mut room = ROOM;
    jobs::hear(rt, points, word, m, l, t, &mut room[..usize::from(lent)])
}

// Makes one call; hands back the note to keep.
fn replay(
    rt: &impl Print,
    stdin: Stdin,
    call: Call,
    kept: Note,
    rows: &mut Room,
) -> io::Result<Note> {
    match call {
        Call::Encode { p, n, count, lent } => encode(rt, stdin, p, n, count, lent)?,
        Call::Start {
            p,
            n,
            count,
            k,
            m,
            l,
            lent,
        } => return start(rt, stdin, p, n, count, k, m, l, lent, rows),
        Call::Turn {
            note,
            allowance,
            lent,
        } => {
            let rows = &mut rows[..usize::from(lent)];
            return jobs::turn(rt, note.unwrap_or(kept), rows, allowance);
        }
        Call::TurnInPlace {
            note,
            allowance,
            lent,
        } => {
            let rows = &mut rows[..usize::from(lent)];
            return jobs::turn_in_place(rt, note.unwrap_or(kept), rows, allowance);
        }
        Call::Finish { note, lent, curve } => {
            let rows = &rows[..usize::from(lent)];
            finish(rt, note.unwrap_or(kept), rows, curve)?
        }
        Call::List {
            p,
            n,
            count,
            k,
            m,
            l,
            t,
            lent,
            messages,
        } => list(rt, stdin, p, n, count, k, m, l, t, lent, messages)?,
        Call::Program { len } => program(rt, stdin, len)?,
        Call::Change { at, byte } => rows[usize::from(at)] = byte,
        Call::Write { departure, lent } => write(rt, departure, lent)?,
        Call::Read { count } => read(rt, stdin, count)?,
        Call::Show { departure, lent } => show(rt, departure, lent)?,
        Call::Hear {
            n,
            count,
            m,
            l,
            t,
            lent,
        } => hear(rt, stdin, n, count, m, l, t, lent)?,
    }
    Ok(kept)
}

// Nothing says that the input ends, so the loop counts to a number that no input reaches.
fn replay_all(rt: &impl Print, stdin: Stdin, rows: &mut Room) -> io::Result<()> {
    let mut note = Note::default();
    for _ in 0..u64::MAX {
        let Some(call) = calls::next(stdin)? else {
            return Ok(());
        };
        note = replay(rt, stdin, call, note, rows)?;
    }
    Ok(())
}

fn main(rt: HostRuntime) -> io::Result<()> {
    let mut rows = ROOM;
    replay_all(&rt, rt.stdin(), &mut rows)
}
