ghost use Rattle.std.specs.Prelude.{◌≡◌, ◌++◌};
ghost use Rattle.seal.specs.Schemes.{nonce_of, keystream, street_cover, street_tag, tagged_bytes};
ghost use Rattle.seal.specs.StreetSealingLemmas.{fit as street_fit};

use crate::scheme::{Scheme, place_and_counter};
use cipher::chacha20::chacha20_block;
use cipher::siphash::siphash24;
use layout::names::Place;
use std::array;

/// The street seal: ChaCha20 covers the body, SipHash-2-4 tags the place and what lies there.
#[derive(Drop)]
pub struct StreetSeal {
    body_key: [u8; 32],
    tag_key: [u8; 16],
}

impl StreetSeal {
    /// A seal with one key for bodies and one for tags.
    pub fn new(body_key: [u8; 32], tag_key: [u8; 16]) -> StreetSeal
        ensures { (result.body_key ≡ body_key) × (result.tag_key ≡ tag_key) }
    {
        StreetSeal { body_key, tag_key }
    }
}

fn nonce_for(at: Place, counter: u32) -> [u8; 12]
    ensures { result ≡ nonce_of at.0 counter }
{
    let mut nonce = [0; 12];
    nonce[0..8].copy_from_slice(&place_and_counter(at, counter));
    nonce
}

fn message_for(at: Place, counter: u32, covered: &[u8; 52]) -> [u8; 60]
    ensures { result ≡ tagged_bytes at.0 counter covered.now }
{
    let mut message = [0; 60];
    message[0..8].copy_from_slice(&place_and_counter(at, counter));
    message[8..60].copy_from_slice(covered);
    message
}

impl Scheme for StreetSeal {
    ghost covers = { λ s. street_cover s.body_key };

    ghost tags = { λ s. street_tag s.tag_key };

    ghost fit = { λ s. street_fit s.body_key s.tag_key };

    fn cover(&self, at: Place, counter: u32, body: &[u8; 52]) -> [u8; 52] {
        let stream = chacha20_block(&self.body_key, 0, &nonce_for(at, counter));
        array::from_fn(|i| body[i] ^ stream[i])
    }

    fn tag(&self, at: Place, counter: u32, covered: &[u8; 52]) -> [u8; 8] {
        siphash24(&self.tag_key, &message_for(at, counter, covered)).to_le_bytes()
    }
}
