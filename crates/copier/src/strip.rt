//! One day's strip of the picture: places down, beats across, a mark for each changed record.
use std::fmt;

/// A record that changed: at which beat, and where.
#[derive(Clone, Copy)]
pub(crate) struct Mark {
    pub beat: usize,
    pub place: u32,
}

#[derive(Clone, Copy)]
pub(crate) struct Strip<'a> {
    pub title: &'static str,
    pub left: u32,
    pub top: u32,
    pub rows: u32,
    /// How many points high a row is; a beat is 10 wide.
    pub high: u32,
    /// The places that are named on the left.
    pub ticks: &'static [u32],
    pub color: &'static str,
    /// Whether a mark tells its block.
    pub named: bool,
    pub marks: &'a [Mark],
}

impl Strip<'_> {
    /// Where the first so many rows end.
    fn below(&self, rows: u32) -> u32 {
        rows.saturating_mul(self.high)
    }

    /// Where a text or a mark stands in the middle of a row.
    fn middle_of(&self, row: u32) -> u32 {
        self.below(row).saturating_add(self.high / 2)
    }
}

/// Paper, the night's band, and a line for each hour of the day.
fn draw_paper<W: fmt::Write>(strip: &Strip<'_>, f: &mut fmt::Formatter<W>) -> fmt::Result {
    let title = strip.title;
    let height = strip.below(strip.rows);
    writeln!(
        f,
        "<text x='0' y='-12' font-size='15' font-weight='bold'>{title}</text>"
    )?;
    writeln!(
        f,
        "<rect x='0' y='0' width='400' height='{height}' fill='#ffffff'/>"
    )?;
    writeln!(
        f,
        "<rect x='240' y='0' width='160' height='{height}' fill='#edf0f4'/>"
    )?;
    for hour in 1..13u32 {
        let x = hour * 20;
        writeln!(
            f,
            "<line x1='{x}' y1='0' x2='{x}' y2='{height}' stroke='#e3e7ec'/>"
        )?;
    }
    writeln!(
        f,
        "<rect x='0' y='0' width='400' height='{height}' fill='none' stroke='#8a94a0'/>"
    )
}

/// The numbers of places and beats, and what they are.
fn draw_axes<W: fmt::Write>(strip: &Strip<'_>, f: &mut fmt::Formatter<W>) -> fmt::Result {
    for place in strip.ticks {
        let y = strip.middle_of(*place).saturating_add(4);
        writeln!(f, "<text x='-6' y='{y}' text-anchor='end'>{place}</text>")?;
    }
    let y = strip.below(strip.rows).saturating_add(15);
    for (x, beat) in [(5, 1), (95, 10), (195, 20), (295, 30), (395, 40)] {
        writeln!(
            f,
            "<text x='{x}' y='{y}' text-anchor='middle'>{beat}</text>"
        )?;
    }
    let low = y.saturating_add(15);
    let middle = strip.below(strip.rows) / 2;
    writeln!(
        f,
        "<text x='120' y='{low}' text-anchor='middle'>beats by day, two an hour</text>"
    )?;
    writeln!(
        f,
        "<text x='320' y='{low}' text-anchor='middle'>beats at night</text>"
    )?;
    writeln!(
        f,
        "<text transform='translate(-32 {middle}) rotate(-90)' text-anchor='middle'>places</text>"
    )
}

fn draw_marks<W: fmt::Write>(strip: &Strip<'_>, f: &mut fmt::Formatter<W>) -> fmt::Result {
    let color = strip.color;
    for Mark { beat, place } in strip.marks {
        let x = beat.saturating_mul(10).saturating_add(1);
        let y = strip.middle_of(*place).saturating_sub(4);
        writeln!(
            f,
            "<rect x='{x}' y='{y}' width='8' height='8' fill='{color}'/>"
        )?;
        if strip.named {
            let x = x.saturating_add(11);
            let y = y.saturating_add(8);
            writeln!(
                f,
                "<text x='{x}' y='{y}' fill='{color}'>block {place}</text>"
            )?;
        }
    }
    Ok(())
}

impl fmt::Display for Strip<'_> {
    fn fmt<W: fmt::Write>(&self, f: &mut fmt::Formatter<W>) -> fmt::Result {
        let left = self.left;
        let top = self.top;
        writeln!(f, "<g transform='translate({left} {top})'>")?;
        draw_paper(self, f)?;
        draw_axes(self, f)?;
        draw_marks(self, f)?;
        f.write_str("</g>\n")
    }
}
