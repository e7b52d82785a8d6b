use layout::names::{Block, Place};
use std::marker::Model;

/// The position map: the place of each landed block, by block. No two blocks have one place.
/// `occupants` is its index by place, for the first places.
// Two vectors and no map: a block lands while the store is open, when nothing may be allocated.
#[derive(Drop)]
pub struct PositionMap {
    pub(crate) places: Vec<Option<Place>>,
    pub(crate) occupants: Vec<Option<Block>>,
}

impl Model for PositionMap {
    ghost use Rattle.std.specs.Prelude.{◌≡◌, ℕ, ◌^◌, ◌<◌, true, List, Option, vec_len};
    ghost use Rattle.tables.specs.Apart.{apart};
    ghost use Rattle.tables.specs.Index.{Indexes};
    ghost use Rattle.tables.specs.Views.{placed, indexed};

    ghost Value = { List (Option ℕ) };

    ghost view = { λ m. placed m.places.items };

    ghost invariant = { λ m. record {
      few : vec_len m.places < 2 ^ 32;
      no_two_at_one_place : apart (placed m.places.items) ≡ true;
      index_agrees : Indexes (indexed m.occupants.items) (placed m.places.items);
    } };
}
