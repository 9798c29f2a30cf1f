// Stored calls: a header of 24 bytes, then the points and symbols of the call or its text. A number of two bytes has its low byte first.
use departures::Departure;
use rows::Note;
use std::io;
use std::io::{ErrorKind, Read, Stdin};

// A call, with what its header says of it: how many points and symbols follow, and how many bytes the job is lent. A turn or a finish without a
// note takes the one that is kept.
#[derive(Clone, Copy)]
pub enum Call {
    Encode {
        p: u8,
        n: u8,
        count: u8,
        lent: u16,
    },
    Start {
        p: u8,
        n: u8,
        count: u8,
        k: u8,
        m: u8,
        l: u8,
        lent: u16,
    },
    Turn {
        note: Option<Note>,
        allowance: u16,
        lent: u16,
    },
    TurnInPlace {
        note: Option<Note>,
        allowance: u16,
        lent: u16,
    },
    Finish {
        note: Option<Note>,
        lent: u16,
        curve: u16,
    },
    List {
        p: u8,
        n: u8,
        count: u8,
        k: u8,
        m: u8,
        l: u8,
        t: u8,
        lent: u16,
        messages: u16,
    },
    Program {
        len: u16,
    },
    Change {
        at: u16,
        byte: u8,
    },
    Write {
        departure: Departure,
        lent: u16,
    },
    Read {
        count: u8,
    },
    Show {
        departure: Departure,
        lent: u16,
    },
    Hear {
        n: u8,
        count: u8,
        m: u8,
        l: u8,
        t: u8,
        lent: u16,
    },
}

// Fills the buffer from standard input; false where the input ends before it is full.
fn fills(stdin: Stdin, buffer: &mut [u8]) -> io::Result<bool> {
    let mut input = stdin;
    match input.read_exact(buffer) {
        Ok(()) => Ok(true),
        Err(error) => {
            if error.kind() == ErrorKind::UnexpectedEof {
                return Ok(false);
            }
            Err(error)
        }
    }
}

// The call of a header, or none where its first byte is no job's.
fn call_of(header: [u8; 24]) -> Option<Call> {
    let [
        job,
        p,
        n,
        count,
        k,
        m,
        l,
        r,
        t,
        kept,
        allowance_low,
        allowance_high,
        lent_low,
        lent_high,
        second_low,
        second_high,
        byte,
        ..
    ] = header;
    let allowance = u16::from_le_bytes([allowance_low, allowance_high]);
    let lent = u16::from_le_bytes([lent_low, lent_high]);
    let second = u16::from_le_bytes([second_low, second_high]);
    let note = if kept == 1 {
        None
    } else {
        Some(Note { p, n, k, m, l, r })
    };
    let departure = Departure {
        boat: p,
        day: allowance,
        minute: second,
    };
    match job {
        1 => Some(Call::Encode { p, n, count, lent }),
        2 => Some(Call::Start {
            p,
            n,
            count,
            k,
            m,
            l,
            lent,
        }),
        3 => Some(Call::Turn {
            note,
            allowance,
            lent,
        }),
        4 => Some(Call::TurnInPlace {
            note,
            allowance,
            lent,
        }),
        5 => Some(Call::Finish {
            note,
            lent,
            curve: second,
        }),
        6 => Some(Call::List {
            p,
            n,
            count,
            k,
            m,
            l,
            t,
            lent,
            messages: second,
        }),
        7 => Some(Call::Program { len: lent }),
        8 => Some(Call::Change {
            at: allowance,
            byte,
        }),
        9 => Some(Call::Write { departure, lent }),
        10 => Some(Call::Read { count }),
        11 => Some(Call::Show { departure, lent }),
        12 => Some(Call::Hear {
            n,
            count,
            m,
            l,
            t,
            lent,
        }),
        _ => None,
    }
}

// The next call, or none where no whole header of one follows.
pub fn next(stdin: Stdin) -> io::Result<Option<Call>> {
    let mut header = [0u8; 24];
    if !fills(stdin, &mut header)? {
        return Ok(None);
    }
    Ok(call_of(header))
}

// The next bytes, as many as there is room for, or as many as follow. An error is the input's.
pub fn read(stdin: Stdin, room: &mut [u8]) -> io::Result<&[u8]> {
    fills(stdin, room)?;
    Ok(room)
}

// A buffer to lend: every length that a call can ask for is within it.
pub type Room = [u8; 65536];

// One as it is before the call. No symbol is 195, so a byte that a job left alone shows.
pub const ROOM: Room = [195; 65536];
