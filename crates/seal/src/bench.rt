ghost use Rattle.std.specs.Prelude.{◌≡◌};
ghost use Rattle.seal.specs.Schemes.{bench_cover, bench_tag};
ghost use Rattle.seal.specs.BenchSealingLemmas.{fit as bench_fit};

use crate::scheme::{Scheme, place_and_counter};
use layout::names::Place;

/// The bench seal: the body stands plain. It hides nothing and serves the workbench only.
#[derive(Clone, Copy)]
pub struct BenchSeal;

impl Scheme for BenchSeal {
    ghost covers = { λ _. bench_cover };

    ghost tags = { λ _. bench_tag };

    ghost fit = { λ _. bench_fit };

    fn cover(&self, _at: Place, _counter: u32, body: &[u8; 52]) -> [u8; 52] {
        *body
    }

    fn tag(&self, at: Place, counter: u32, _covered: &[u8; 52]) -> [u8; 8] {
        place_and_counter(at, counter)
    }
}
