//! The picture: two days under the hiding store, and below them the same days under a plain store.
use crate::strip::{Mark, Strip};
use bookings::days::{BLOCKS, PLACES};
use std::fmt;

/// The marks of the first and the second day under each store.
#[derive(Clone, Copy)]
pub(crate) struct Picture<'a> {
    pub hidden: [&'a [Mark]; 2],
    pub plain: [&'a [Mark]; 2],
}

const HEAD: &str =
    "<svg xmlns='http://www.w3.org/2000/svg' width='980' height='810' viewBox='0 0 980 810' font-family='Helvetica, Arial, sans-serif' font-size='11' fill='#2b3440'>
<rect x='0' y='0' width='980' height='810' fill='#f7f8fa'/>
<text x='60' y='38' font-size='22' font-weight='bold'>What a copier of the card sees</text>
<text x='60' y='60' font-size='13'>Two days with different bookings. A mark is a record that changed: at which beat, and at which place of the card.</text>
";

fn hidden_strip<'a>(title: &'static str, left: u32, marks: &'a [Mark]) -> Strip<'a> {
    Strip {
        title,
        left,
        top: 110,
        rows: PLACES,
        high: 10,
        ticks: &[0, 8, 16, 24, 31],
        color: "#1f5fa8",
        named: false,
        marks,
    }
}

fn plain_strip<'a>(title: &'static str, left: u32, marks: &'a [Mark]) -> Strip<'a> {
    Strip {
        title,
        left,
        top: 550,
        rows: BLOCKS,
        high: 14,
        ticks: &[0, 4, 8, 11],
        color: "#b8400e",
        named: true,
        marks,
    }
}

impl fmt::Display for Picture<'_> {
    fn fmt<W: fmt::Write>(&self, f: &mut fmt::Formatter<W>) -> fmt::Result {
        let hidden_first = hidden_strip("hiding store, first day", 60, self.hidden[0]);
        let hidden_second = hidden_strip("hiding store, second day", 540, self.hidden[1]);
        let plain_first = plain_strip("plain store, first day", 60, self.plain[0]);
        let plain_second = plain_strip("plain store, second day", 540, self.plain[1]);
        f.write_str(HEAD)?;
        write!(f, "{hidden_first}{hidden_second}")?;
        writeln!(
            f,
            "<text x='60' y='490' font-size='14' fill='#1f5fa8'>The copier sees the same marks on both days: one record a beat, booking or no booking.</text>"
        )?;
        write!(f, "{plain_first}{plain_second}")?;
        writeln!(
            f,
            "<text x='60' y='780' font-size='14' fill='#b8400e'>The copier sees who came, and in which hour: each booking changes its block's own place.</text>"
        )?;
        f.write_str("</svg>\n")
    }
}
