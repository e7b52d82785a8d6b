//! A layer: two cards as one.
ghost use Rattle.std.specs.Prelude.{◌≡◌};
ghost use Rattle.card.specs.Kinds.{split};
ghost use Rattle.card.specs.Layers.{Halved};
ghost use Rattle.card.specs.Weaving.{split_few, split_whole};

use crate::MOST_RECORDS;
use crate::card::Card;
use crate::fault::CardFault;
use layout::names::Place;

/// Two cards that take turns: place 0 is the first's place 0, place 1 the second's place 0,
/// place 2 the first's place 1, and so on, as long as both have the place.
#[derive(Drop)]
pub struct SplitCard<C: Card, D: Card> {
    even: C,
    odd: D,
}

/// A place on one of the two cards.
#[derive(Clone, Copy)]
enum Half {
    Even(Place),
    Odd(Place),
}

impl<C: Card, D: Card> SplitCard<C, D> {
    /// The card whose even places lie on one card and whose odd places lie on the other.
    pub fn new(even: C, odd: D) -> SplitCard<C, D>
        ensures { (result.even ≡ even) × (result.odd ≡ odd) }
    {
        Self { even, odd }
    }

    /// Gives both cards back, that of the even places first.
    pub fn into_halves(self) -> (C, D)
        ensures { (result.0 ≡ self.even) × (result.1 ≡ self.odd) }
    {
        let SplitCard { even, odd } = self;
        (even, odd)
    }

    /// On which card a place lies, and where.
    fn locate(&self, at: Place) -> Result<Half, CardFault>
        ensures { Halved (C.Card.records self.now.even) (D.Card.records self.now.odd) at result }
    {
        if at.0 >= self.count() {
            return Err(CardFault::Beyond(at));
        }
        let place = Place(at.0 / 2);
        if at.0 % 2 == 0 {
            Ok(Half::Even(place))
        } else {
            Ok(Half::Odd(place))
        }
    }
}

impl<C: Card, D: Card> Card for SplitCard<C, D> {
    ghost records = { λ s. split (C.Card.records s.even) (D.Card.records s.odd) };

    ghost few = { λ s. split_few (C.Card.records s.even) (D.Card.records s.odd) };

    ghost whole = { λ s. split_whole (C.Card.records s.even) (D.Card.records s.odd) (C.Card.whole s.even) (D.Card.whole s.odd) };

    fn count(&self) -> u32 {
        let pairs = self.even.count().min(self.odd.count());
        (2 * pairs).min(MOST_RECORDS)
    }

    fn get(&self, at: Place, buffer: &mut [u8]) -> Result<(), CardFault> {
        match self.locate(at)? {
            Half::Even(place) => self.even.get(place, buffer),
            Half::Odd(place) => self.odd.get(place, buffer),
        }
    }

    fn put(&mut self, at: Place, bytes: &[u8]) -> Result<(), CardFault> {
        match self.locate(at)? {
            Half::Even(place) => self.even.put(place, bytes),
            Half::Odd(place) => self.odd.put(place, bytes),
        }
    }
}
