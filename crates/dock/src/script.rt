//! A script: makings, each with the calls on the store that it makes.
use crate::orders::{CallOrder, MakingOrder, Order, order_of};
use crate::trouble::Trouble;
use crate::wrong::Wrong;
use std::alloc::Global;
use std::iter::{RepeatN, repeat_n};

/// A line's calls, with the line's number.
#[derive(Drop)]
pub(crate) struct CallLine {
    pub line: usize,
    pub order: CallOrder,
}

impl CallLine {
    /// The line, as often as it makes a call.
    // No list of them is kept: it would take memory for each call of a long script.
    pub(crate) fn asked(&self) -> RepeatN<&CallLine> {
        repeat_n(self, self.order.calls() as usize)
    }
}

/// A making and the calls up to the next one.
#[derive(Drop)]
pub(crate) struct Part {
    /// The number of the making's line.
    pub line: usize,
    pub making: MakingOrder,
    pub calls: Vec<CallLine>,
}

/// Reads the lines of standard input up to the first that is malformed.
pub(crate) fn read_parts(rt: &HostRuntime, parts: &mut Vec<Part>) -> Result<(), Trouble<'static>> {
    let heap = rt.alloc();
    for (read, line) in rt.lines(heap).zip(1usize..) {
        let Ok(text) = read else {
            return Err(Trouble::Line(line, Wrong::NoText));
        };
        match order_of(heap, text.as_str()) {
            Ok(None) => {}
            Ok(Some(order)) => add_order(heap, parts, line, order)?,
            Err(wrong) => return Err(Trouble::Line(line, wrong)),
        }
    }
    Ok(())
}

fn add_order(
    heap: Global,
    parts: &mut Vec<Part>,
    line: usize,
    order: Order,
) -> Result<(), Trouble<'static>> {
    match order {
        Order::Making(making) => {
            let calls = Vec::new(heap);
            parts.push(Part {
                line,
                making,
                calls,
            })?;
        }
        Order::Call(order) => {
            let Some(part) = parts.last_mut() else {
                return Err(Trouble::Line(line, Wrong::NoMaking));
            };
            part.calls.push(CallLine { line, order })?;
        }
    }
    Ok(())
}
