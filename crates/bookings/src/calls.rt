ghost use Rattle.std.specs.Prelude.{◌≡◌, ◌++◌, map, replicate, IfOk, OnOk};
ghost use Rattle.machine.specs.Machine.{Beat};
ghost use Rattle.runs.specs.Told.{call_told};
ghost use Rattle.bookings.specs.Days.{written, all_reads, day_calls};

use crate::days::{BLOCKS, HOURLY, NIGHTLY};
use example::booking::Booking;
use layout::names::Block;
use runs::calls::Call;
use std::alloc::{AllocError, Global};
use std::iter::repeat_n;

/// As long as the longest map file.
const FILE_LEN: usize = 2058;

/// A day's calls: each hour its booking and its beats, then the night's beats, a read of every block and the map file.
pub fn calls_of_day(heap: Global, day: &[Option<Booking>]) -> Result<Vec<Call<'static>>, AllocError>
    ensures { IfOk result (λ v. map call_told v.items ≡ day_calls day.now) }
{
    let mut calls = Vec::new(heap);
    for hour in day {
        push_booking(&mut calls, hour)?;
        push_beats(&mut calls, HOURLY)?;
    }
    push_beats(&mut calls, NIGHTLY)?;
    push_reads(&mut calls)?;
    calls.push(Call::Save(FILE_LEN))?;
    Ok(calls)
}

/// Adds a read of every block.
pub fn push_reads(calls: &mut Vec<Call<'static>>) -> Result<(), AllocError>
    ensures { OnOk result (map call_told calls.new.items ≡ map call_told calls.old.items ++ all_reads) }
{
    for block in 0..BLOCKS {
        calls.push(Call::Read(Block(block), 48))?;
    }
    Ok(())
}

/// Adds the write of an hour's booking, if one came.
fn push_booking(calls: &mut Vec<Call<'static>>, hour: &Option<Booking>) -> Result<(), AllocError>
    ensures { OnOk result (map call_told calls.new.items ≡ map call_told calls.old.items ++ written hour.now) }
{
    let Some(booking) = hour else {
        return Ok(());
    };
    calls.push(Call::Write(booking.block, booking.text.as_bytes()))?;
    Ok(())
}

fn push_beats(calls: &mut Vec<Call<'static>>, count: u32) -> Result<(), AllocError>
    ensures { OnOk result (map call_told calls.new.items ≡ map call_told calls.old.items ++ replicate count Beat) }
{
    calls.extend(repeat_n(Call::Beat, count as usize))
}
