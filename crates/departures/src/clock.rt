// The time that a departure prints.
ghost use Rattle.std.specs.Prelude.{◌≡◌, ◌≤◌, ◌<◌, ◌+◌, length};
ghost use Rattle.std.proofs.lemmas.List.Edits.{sets};
ghost use Rattle.departures.specs.Departures.{minute_most, time_bytes, clock};

use crate::limits::TIME_BYTES;

// The byte of a decimal digit.
fn digit(n: u16) -> u8
    requires { n < 10 }
    ensures { result ≡ 48 + n }
{
    b'0' + n as u8
}

// Hours and minutes of the service day: the hours go on past 23. Digit by digit, since no clause says that a `write!` into the bytes succeeds.
pub fn put_clock(minute: u16, text: &mut [u8])
    requires minute_bound { minute ≤ minute_most }
    requires room { time_bytes ≤ length text.old }
    ensures { text.new ≡ sets text.old 0 (clock minute) }
{
    let hours = minute / 60;
    let minutes = minute % 60;
    text[..TIME_BYTES].copy_from_slice(&[
        digit(hours / 10),
        digit(hours % 10),
        b':',
        digit(minutes / 10),
        digit(minutes % 10),
    ]);
}
