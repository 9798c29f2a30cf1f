// The jobs on departures for C. A departure comes in as three numbers and goes out in five lent bytes; what is heard goes out in six, the
// departure's five and the count. Where the six are too few hear is asked with no room at all, as lib.rt asks its jobs.
ghost use Rattle.std.specs.Prelude.{◌≡◌, ◌≤◌, length};
ghost use Rattle.departures.specs.Jobs.{WritesDeparture, ShowsDeparture};
ghost use Rattle.departures.specs.Results.{heard};
ghost use Rattle.boards.specs.Lent.{departure_bytes, heard_bytes, departure_into, back_of_hear, heard_into};
ghost use Rattle.boards.specs.DepartureCalls.{ReadCall, HearCall};

use crate::clear_lent;
use departures::{Departure, Heard};
use poly::Refused;

const DEPARTURE_BYTES: usize = 5;

const HEARD_BYTES: usize = 6;

// What hear hands back to C, the number as a byte; zero stands for what there is not.
#[derive(Clone, Copy, Default)]
pub struct HeardBack {
    pub number: u8,
    pub departure: Departure,
    pub count: u8,
}

fn back_of_hear(back: Result<Heard, Refused>) -> HeardBack
    ensures { result ≡ back_of_hear (heard back) }
{
    let (departure, count) = match back {
        Ok(Heard::One(departure)) => (departure, 1),
        Ok(Heard::Several) => (Departure::default(), 2),
        Ok(Heard::None) | Err(_) => (Departure::default(), 0),
    };
    HeardBack {
        number: poly::outcome(&back),
        departure,
        count,
    }
}

fn put_departure(bytes: &mut [u8], departure: Departure)
    requires { departure_bytes ≤ length bytes.old }
    ensures { bytes.new ≡ departure_into departure bytes.old }
{
    let [day_low, day_high] = departure.day.to_le_bytes();
    let [minute_low, minute_high] = departure.minute.to_le_bytes();
    bytes[..DEPARTURE_BYTES].copy_from_slice(&[
        departure.boat,
        day_low,
        day_high,
        minute_low,
        minute_high,
    ]);
}

// The departure's bytes stand in one place, and the count after them.
fn put_heard(bytes: &mut [u8], back: HeardBack)
    requires { heard_bytes ≤ length bytes.old }
    ensures { bytes.new ≡ heard_into back bytes.old }
{
    put_departure(bytes, back.departure);
    bytes[DEPARTURE_BYTES] = back.count;
}

#[unsafe(no_mangle)]
pub extern "C" fn pluck_write_departure(boat: u8, day: u16, minute: u16, message: &mut [u8]) -> u8
    ensures { WritesDeparture (record { boat = boat; day = day; minute = minute }) message.old message.new
        result }
{
    poly::outcome(&departures::write(Departure { boat, day, minute }, message))
}

#[unsafe(no_mangle)]
pub extern "C" fn pluck_read_departure(message: &[u8], departure: &mut [u8]) -> u8
    ensures { ReadCall message.now departure.old departure.new result }
{
    match departures::read(message) {
        Err(refused) => {
            clear_lent(departure, DEPARTURE_BYTES);
            u8::from(refused)
        }
        Ok(spelt) => {
            if departure.len() < DEPARTURE_BYTES {
                return u8::from(Refused::TooShort);
            }
            put_departure(departure, spelt);
            0
        }
    }
}

#[unsafe(no_mangle)]
pub extern "C" fn pluck_show_departure(boat: u8, day: u16, minute: u16, text: &mut [u8]) -> u8
    ensures { ShowsDeparture (record { boat = boat; day = day; minute = minute }) text.old text.new result }
{
    poly::outcome(&departures::show(Departure { boat, day, minute }, text))
}

#[unsafe(no_mangle)]
pub extern "C" fn pluck_hear(
    points: &[u8],
    word: &[u8],
    m: u8,
    l: u8,
    t: u8,
    room: &mut [u8],
    heard: &mut [u8],
) -> u8
    ensures { HearCall points.now word.now m l t room.old room.new heard.old
        heard.new result }
{
    if heard.len() < HEARD_BYTES {
        return back_of_hear(departures::hear(points, word, m, l, t, &mut [])).number;
    }
    let back = back_of_hear(departures::hear(points, word, m, l, t, room));
    put_heard(heard, back);
    back.number
}
