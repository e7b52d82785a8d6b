//! The bookings of the two days, and the size of a day.
use example::booking::Booking;
use layout::names::Block;

pub const PLACES: u32 = 32;

/// The card: 32 records of 64 bytes.
pub const IMAGE_LEN: usize = 2048;

pub const BLOCKS: u32 = 12;

/// A day: in each hour at most one booking comes in.
pub const HOURS: usize = 12;

/// So many beats in each hour, whether a booking came or not.
pub const HOURLY: u32 = 2;

/// So many beats at night, so that nothing waits when the map is saved.
pub const NIGHTLY: u32 = 16;

/// The beats of a day, and so the words of its tape.
pub const BEATS: u32 = 40;

pub const FIRST_DAY: [Option<Booking>; HOURS] = [
    Some(Booking {
        block: Block(3),
        text: "K7Q2 Anna Berg, room 14, two nights",
    }),
    Some(Booking {
        block: Block(0),
        text: "M4XD Jonas Falk, room 3, one night",
    }),
    None,
    Some(Booking {
        block: Block(11),
        text: "T9RW Ida Lund, room 21, four nights",
    }),
    Some(Booking {
        block: Block(6),
        text: "B2HN Peter Holm, room 8, one night",
    }),
    None,
    Some(Booking {
        block: Block(3),
        text: "K7Q2 Anna Berg, room 14, three nights",
    }),
    Some(Booking {
        block: Block(9),
        text: "F8LJ Omar Said, room 5, two nights",
    }),
    Some(Booking {
        block: Block(4),
        text: "W3GV Lena Vogt, room 12, six nights",
    }),
    None,
    Some(Booking {
        block: Block(7),
        text: "D6SY Paul Weiss, room 2, one night",
    }),
    None,
];

pub const SECOND_DAY: [Option<Booking>; HOURS] = [
    None,
    None,
    Some(Booking {
        block: Block(10),
        text: "Z5CP Marta Ruiz, room 17, three nights",
    }),
    None,
    None,
    None,
    Some(Booking {
        block: Block(10),
        text: "Z5CP Marta Ruiz, cancelled",
    }),
    None,
    Some(Booking {
        block: Block(1),
        text: "H1TB Emil Roth, room 9, two nights",
    }),
    None,
    None,
    None,
];
