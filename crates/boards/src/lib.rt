// The jobs for C: numbers pass as themselves, a slice as its address and its length. A note is six lent bytes, and what a job hands back
// beside its number goes into five: include/pluck.h says the same to whoever calls. Where one of the two is too short the job is asked with
// no room at all: it refuses in its own order, at the latest with 9. A turn and a finish need the note for that, and give 9 without it.
#![tactic(auto)]

ghost use Rattle.std.specs.Prelude.{◌≡◌, ◌≤◌, length};
ghost use Rattle.poly.specs.Encode.{Encoded};
ghost use Rattle.rows.specs.Results.{started, finished};
ghost use Rattle.near.specs.Results.{listed};
ghost use Rattle.boards.specs.Lent.{note_bytes, back_bytes, note_of, note_into, back_of_finish, back_of_list, back_into, Cleared};
ghost use Rattle.boards.specs.Calls.{StartCall, TurnCall, FinishCall, ListCall};

use near::Near;
use poly::Refused;
use rows::{Finished, Note, Request};

mod departure_calls; // departure_calls.rt: the jobs on departures for C

const NOTE_BYTES: usize = 6;

const BACK_BYTES: usize = 5;

// What jobs hand back beside their number; zero stands for what a job does not have.
#[derive(Clone, Copy, Default)]
pub struct Back {
    pub updates: u16,
    pub weight: u8,
    pub height: u8,
    pub count: u8,
}

// By an index: a pattern over a slice wants an arm that can't come.
fn read_note(bytes: &[u8]) -> Note
    requires { note_bytes ≤ length bytes.now }
    ensures { result ≡ note_of bytes.now }
{
    Note {
        p: bytes[0],
        n: bytes[1],
        k: bytes[2],
        m: bytes[3],
        l: bytes[4],
        r: bytes[5],
    }
}

fn write_note(bytes: &mut [u8], note: Note)
    requires { note_bytes ≤ length bytes.old }
    ensures { bytes.new ≡ note_into note bytes.old }
{
    let Note { p, n, k, m, l, r } = note;
    bytes[..NOTE_BYTES].copy_from_slice(&[p, n, k, m, l, r]);
}

fn write_back(bytes: &mut [u8], back: Back)
    requires { back_bytes ≤ length bytes.old }
    ensures { bytes.new ≡ back_into back bytes.old }
{
    let [low, high] = back.updates.to_le_bytes();
    bytes[..BACK_BYTES].copy_from_slice(&[low, high, back.weight, back.height, back.count]);
}

// A refused start has a note of zeros.
fn note_of_start(back: Result<Note, Refused>) -> Note
    ensures { result ≡ (started back).note }
{
    back.unwrap_or_default()
}

fn back_of_finish(back: Result<Finished, Refused>) -> Back
    ensures { result ≡ back_of_finish (finished back) }
{
    let Finished { weight, height } = back.unwrap_or_default();
    Back {
        updates: 0,
        weight,
        height,
        count: 0,
    }
}

fn back_of_list(back: Result<Near, Refused>) -> Back
    ensures { result ≡ back_of_list (listed back) }
{
    let near = back.unwrap_or_default();
    Back {
        updates: near.updates,
        weight: near.weight,
        height: 0,
        count: near.count,
    }
}

// Zeros where there is room for them: nothing of an earlier call is left to be taken for this one's.
fn clear_lent(bytes: &mut [u8], size: usize)
    ensures { Cleared size bytes.old bytes.new }
{
    if bytes.len() < size {
        return;
    }
    poly::clear(bytes, size);
}

#[unsafe(no_mangle)]
pub extern "C" fn pluck_encode(p: u8, points: &[u8], message: &[u8], word: &mut [u8]) -> u8
    ensures { Encoded p points.now message.now word.old word.new result }
{
    poly::outcome(&poly::encode(p, points, message, word))
}

#[unsafe(no_mangle)]
pub extern "C" fn pluck_start(
    p: u8,
    points: &[u8],
    word: &[u8],
    k: u8,
    m: u8,
    l: u8,
    rows: &mut [u8],
    note: &mut [u8],
) -> u8
    ensures { StartCall p points.now word.now k m l rows.old rows.new note.old
        note.new result }
{
    let request = Request {
        p,
        points,
        word,
        k,
        m,
        l,
    };
    if note.len() < NOTE_BYTES {
        return poly::outcome(&request.start(&mut []));
    }
    let started = request.start(rows);
    write_note(note, note_of_start(started));
    poly::outcome(&started)
}

#[unsafe(no_mangle)]
pub extern "C" fn pluck_turn(
    note: &mut [u8],
    rows: &mut [u8],
    allowance: u16,
    back: &mut [u8],
) -> u8
    ensures { TurnCall allowance note.old note.new rows.old rows.new back.old
        back.new result }
{
    if note.len() < NOTE_BYTES {
        clear_lent(back, BACK_BYTES);
        return u8::from(Refused::TooShort);
    }
    let given = read_note(note);
    if back.len() < BACK_BYTES {
        return poly::outcome(&given.turn(&mut [], allowance).outcome);
    }
    let turned = given.turn(rows, allowance);
    write_note(note, turned.note);
    write_back(
        back,
        Back {
            updates: turned.updates,
            ..Back::default()
        },
    );
    poly::outcome(&turned.outcome)
}

#[unsafe(no_mangle)]
pub extern "C" fn pluck_finish(note: &[u8], rows: &[u8], curve: &mut [u8], back: &mut [u8]) -> u8
    ensures { FinishCall note.now rows.now curve.old curve.new back.old
        back.new result }
{
    if note.len() < NOTE_BYTES {
        clear_lent(back, BACK_BYTES);
        return u8::from(Refused::TooShort);
    }
    let given = read_note(note);
    if back.len() < BACK_BYTES {
        return poly::outcome(&rows::finish(given, rows, &mut []));
    }
    let finished = rows::finish(given, rows, curve);
    write_back(back, back_of_finish(finished));
    poly::outcome(&finished)
}

#[unsafe(no_mangle)]
pub extern "C" fn pluck_list(
    p: u8,
    points: &[u8],
    word: &[u8],
    k: u8,
    m: u8,
    l: u8,
    t: u8,
    room: &mut [u8],
    messages: &mut [u8],
    back: &mut [u8],
) -> u8
    ensures { ListCall p points.now word.now k m l t room.old room.new
        messages.old messages.new back.old back.new result }
{
    let request = Request {
        p,
        points,
        word,
        k,
        m,
        l,
    };
    if back.len() < BACK_BYTES {
        return poly::outcome(&near::list(&request, t, &mut [], &mut []));
    }
    let listed = near::list(&request, t, room, messages);
    write_back(back, back_of_list(listed));
    poly::outcome(&listed)
}
