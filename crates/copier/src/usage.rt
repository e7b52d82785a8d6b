//! What `copier --help` prints.

pub(crate) const USAGE: &str = "copier: what someone learns who copies a dock's card

usage: copier OLD NEW            compares two copies of one card: which records changed,
                                 and from which counter to which
       copier --picture FILE     draws in the SVG file FILE what copies show of two days
                                 with different bookings, under the hiding store and a plain one
       copier --help             prints this

A copy is the card's image: 64 bytes a place, of which the first four are the record's
counter, lowest byte first. The rest of a record is sealed.
";
