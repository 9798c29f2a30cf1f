// Why a call is refused.
ghost use Rattle.std.specs.Prelude.{◌≡◌};
ghost use Rattle.poly.specs.Refusals.{number_of, outcome};

// The lines of the table of refusals, each with its number and what makes it apply.
#[derive(Clone, Copy, Debug, PartialEq, Eq)]
pub enum Refused {
    // 1: p is no field size
    NotListed = 1,
    // 2: n is below 3 or above p
    BadCount,
    // 3: the word's length is not n
    BadLength,
    // 4: k is below 2 or above n - 1
    BadDegree,
    // 5: m or l is out of its range
    BadHeights,
    // 6: a point or a symbol is p or more
    TooLarge,
    // 7: two points are equal
    Repeated,
    // 8: t is below 1 or above n
    BadAgreements,
    // 9: a lent buffer is too short
    TooShort,
    // 10: a note of no request, or with no such row
    BadNote,
    // 11: the rows are not as a turn leaves them
    NotAsLeft,
    // 12: finish is asked before the last row is done
    Unfinished,
    // 13: m t is not above the curve's weight
    Unvouched,
    // 14: the lines of a request can't be read
    Unreadable,
    // 15: a boat, day or minute is out of its range, or a message is no departure
    NoDeparture,
}

impl From<Refused> for u8 {
    ghost from_gives = { λ refused number. number ≡ number_of refused };

    fn from(refused: Refused) -> u8 {
        refused as u8
    }
}

// The number that stands for what a call handed back: 0 where it was done.
pub fn outcome<T>(back: &Result<T, Refused>) -> u8
    ensures { result ≡ outcome back.now }
{
    match back {
        Ok(_) => 0,
        Err(refused) => u8::from(*refused),
    }
}
