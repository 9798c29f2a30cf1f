// The limits of the numbers that a caller gives, and what follows from them: specs/Limits.antt has the same names.

// The largest field size, and so the most points.
pub const FIELD_MOST: usize = 31;

// The greatest multiplicity m, and the greatest height l.
pub const MULTIPLICITY_MOST: u8 = 4;

pub const HEIGHT_MOST: u8 = 8;

// The greatest W.
pub const WIDTH_MOST: usize = 240;

// The bytes of the largest curve. A constant's value calls no function, so `as` makes the wider number here.
pub const CURVE_MOST: usize = (HEIGHT_MOST as usize + 1) * (WIDTH_MOST + 1);

// The bytes of the most messages.
pub const MESSAGES_MOST: usize = HEIGHT_MOST as usize * (FIELD_MOST - 1);

// The bytes of working room that the list job asks.
pub const WORKING_ROOM: usize = 32768;

pub const ALLOWANCE_MOST: u16 = 65535;
