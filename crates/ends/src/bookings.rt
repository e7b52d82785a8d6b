//! The bookings of the example.
use example::booking::Booking;
use layout::names::Block;

pub(crate) const BOOKINGS: [Booking; 8] = [
    Booking {
        block: Block(3),
        text: "K7Q2 Anna Berg, room 14, two nights",
    },
    Booking {
        block: Block(0),
        text: "M4XD Jonas Falk, room 3, one night",
    },
    Booking {
        block: Block(11),
        text: "T9RW Ida Lund, room 21, four nights",
    },
    Booking {
        block: Block(6),
        text: "B2HN Peter Holm, room 8, one night",
    },
    Booking {
        block: Block(1),
        text: "Z5CP Marta Ruiz, room 17, three nights",
    },
    Booking {
        block: Block(9),
        text: "F8LJ Omar Said, room 5, two nights",
    },
    Booking {
        block: Block(4),
        text: "W3GV Lena Vogt, room 12, six nights",
    },
    Booking {
        block: Block(7),
        text: "D6SY Paul Weiss, room 2, one night",
    },
];
