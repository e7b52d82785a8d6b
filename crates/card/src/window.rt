//! A layer: a part of another card.
ghost use Rattle.std.specs.Prelude.{◌≡◌};
ghost use Rattle.card.specs.Kinds.{window};
ghost use Rattle.card.specs.Layers.{Located};
ghost use Rattle.card.specs.Cards.{most};
ghost use Rattle.card.specs.Windows.{window_few, window_whole};

use crate::card::Card;
use crate::fault::CardFault;
use layout::names::Place;

/// The part of a card from place `start` on, `len` places long, or as many of them as there are.
#[derive(Drop)]
pub struct WindowCard<C: Card> {
    below: C,
    start: u32,
    len: u32,
}

impl<C: Card> WindowCard<C> {
    /// The window over a card.
    pub fn new(below: C, start: u32, len: u32) -> WindowCard<C>
        ensures { (result.below ≡ below) × (result.start ≡ start) × (result.len ≡ len) }
    {
        Self { below, start, len }
    }

    /// Gives the card below back.
    pub fn into_below(self) -> C
        ensures { result ≡ self.below }
    {
        let WindowCard {
            below,
            start: _,
            len: _,
        } = self;
        below
    }

    /// Where a place of the window lies below.
    fn locate(&self, at: Place) -> Result<Place, CardFault>
        ensures { Located (window self.now.start self.now.len) (C.Card.records self.now.below) at result }
    {
        if at.0 >= self.count() {
            return Err(CardFault::Beyond(at));
        }
        Ok(Place(self.start + at.0))
    }
}

impl<C: Card> Card for WindowCard<C> {
    ghost records = { λ w. window w.start w.len (C.Card.records w.below) };

    ghost few = { λ w. window_few w.start w.len most (C.Card.records w.below) (C.Card.few w.below) };

    ghost whole = { λ w. window_whole w.start w.len (C.Card.records w.below) (C.Card.whole w.below) };

    fn count(&self) -> u32 {
        self.below.count().saturating_sub(self.start).min(self.len)
    }

    fn get(&self, at: Place, buffer: &mut [u8]) -> Result<(), CardFault> {
        let below = self.locate(at)?;
        self.below.get(below, buffer)
    }

    fn put(&mut self, at: Place, bytes: &[u8]) -> Result<(), CardFault> {
        let below = self.locate(at)?;
        self.below.put(below, bytes)
    }
}
