// The numbers of a departure: specs/Departures.antt has the same names.

// The field of its symbols, and so the base of its digits.
pub const DEPARTURE_FIELD: u8 = 31;

// The symbols of its message.
pub const DEPARTURE_SYMBOLS: usize = 6;

// The largest boat, service day and minute of the service day.
pub const BOAT_MOST: u8 = 30;

pub const DAY_MOST: u16 = 960;

pub const MINUTE_MOST: u16 = 1799;

// The bytes of the time that it prints.
pub const TIME_BYTES: usize = 5;
