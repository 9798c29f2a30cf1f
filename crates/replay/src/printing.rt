// What lines are made of.
ghost use Rattle.std.specs.Prelude.{◌<◌};

use departures::Departure;
use rows::Note;
use std::fmt;

// Each byte with one space before it.
#[derive(Clone, Copy)]
pub struct Spaced<'a>(pub &'a [u8]);

impl fmt::Display for Spaced<'_> {
    fn fmt<W: fmt::Write>(&self, f: &mut fmt::Formatter<W>) -> fmt::Result {
        for b in self.0 {
            write!(f, " {b}")?;
        }
        Ok(())
    }
}

// A note, as lines name it.
#[derive(Clone, Copy)]
pub struct Noted(pub Note);

impl fmt::Display for Noted {
    fn fmt<W: fmt::Write>(&self, f: &mut fmt::Formatter<W>) -> fmt::Result {
        let Note { p, n, k, m, l, r } = self.0;
        write!(f, "note {p} {n} {k} {m} {l} {r}")
    }
}

// A departure, as lines name it.
#[derive(Clone, Copy)]
pub struct Departing(pub Departure);

impl fmt::Display for Departing {
    fn fmt<W: fmt::Write>(&self, f: &mut fmt::Formatter<W>) -> fmt::Result {
        let Departure { boat, day, minute } = self.0;
        write!(f, "departure {boat} {day} {minute}")
    }
}

fn step(s: u64, b: u8) -> u64
    requires { s < 4294967291 }
    ensures { result < 4294967291 }
{
    (257 * s + u64::from(b) + 1) % 4294967291
}

// A number in which every byte lent counts, where there are too many to print.
pub fn sum(lent: &[u8]) -> u64 {
    let mut s = 0;
    for b in lent {
        s = step(s, *b);
    }
    s
}
