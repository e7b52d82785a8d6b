//! Two copies of one card, compared as anyone can: record by record, by the clear counters.
use crate::trouble::Trouble;
use console::files::read_file;
use layout::records::clear_counter;
use std::io;

/// How many records changed, and how many of them in a way that no store causes.
#[derive(Clone, Copy)]
struct Count {
    changed: u32,
    odd: u32,
}

/// Prints what changed between two copies.
pub(crate) fn show_changes<'a>(
    rt: &HostRuntime,
    old_path: &'a str,
    new_path: &'a str,
) -> Result<(), Trouble<'a>> {
    let old = read_file(rt, old_path)?;
    let new = read_file(rt, new_path)?;
    let (before, after) = (old.len(), new.len());
    if before != after {
        return Err(Trouble::Lengths(old_path, before, new_path, after));
    }
    let (olds, old_rest) = old.as_slice().as_chunks::<64>();
    let (news, new_rest) = new.as_slice().as_chunks::<64>();
    if olds.is_empty() {
        return Err(Trouble::NoRecord(old_path, before));
    }
    let count = show_places(rt, olds, news)?;
    show_rest(rt, old_rest, new_rest)?;
    show_summary(rt, count, olds.len())?;
    Ok(())
}

/// A line for each place whose record changed.
fn show_places(rt: &HostRuntime, olds: &[[u8; 64]], news: &[[u8; 64]]) -> io::Result<Count> {
    let mut count = Count { changed: 0, odd: 0 };
    let records = olds.iter().zip(news.iter()).enumerate();
    for (place, (old, new)) in records.filter(|(_, (old, new))| old != new) {
        let before = clear_counter(old);
        let after = clear_counter(new);
        count.changed = count.changed.saturating_add(1);
        if before == after {
            println!(rt; "place {place}: changed under the counter {before}")?;
        } else {
            println!(rt; "place {place}: counter {before} -> {after}")?;
        }
        if before >= after {
            count.odd = count.odd.saturating_add(1);
        }
    }
    Ok(count)
}

/// What stands behind the last whole record is no record.
fn show_rest(rt: &HostRuntime, old: &[u8], new: &[u8]) -> io::Result<()> {
    let count = old.len();
    if count == 0 {
        return Ok(());
    }
    let told = if old == new { "unchanged" } else { "changed" };
    println!(rt; "bytes after the last whole record, which are no record: {count}, {told}")
}

fn show_summary(rt: &HostRuntime, count: Count, places: usize) -> io::Result<()> {
    let Count { changed, odd } = count;
    println!(rt; "{changed} of {places} places changed")?;
    if odd != 0 {
        println!(rt;
            "{odd} of them under a counter that did not rise, which no store does: damage, a new format, or the copies in the wrong order"
        )?;
    }
    println!(rt;
        "this is all that the face tells: neither which block a record holds, nor whether a booking came"
    )
}
