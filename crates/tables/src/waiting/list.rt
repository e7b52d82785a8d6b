use layout::body::Body;
use std::collections::VecDeque;
use std::marker::Model;

/// The waiting list: blocks with their values, in turn order. There is room for sixteen from the start.
#[derive(Drop)]
pub struct WaitingList {
    pub(crate) slots: VecDeque<Body>,
}

impl Model for WaitingList {
    ghost use Rattle.std.specs.Prelude.{ℕ, ◌≤◌, List};
    ghost use Rattle.std.specs.VecDeque.{deque_capacity};
    ghost use Rattle.layout.specs.Numbers.{Bytes};
    ghost use Rattle.tables.specs.Views.{waited};

    ghost Value = { List (ℕ × Bytes) };

    ghost view = { λ w. waited w.slots.items };

    ghost invariant = { λ w. 16 ≤ deque_capacity w.slots };
}
