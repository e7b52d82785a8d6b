ghost use Rattle.std.specs.Prelude.{◌≡◌};
ghost use Rattle.tape.specs.Keyed.{keyed_words};

use crate::fault::TapeFault;
use crate::tape::Tape;
use cipher::chacha20::chacha20_words;
use std::marker::Model;

/// The keyed tape: words of ChaCha20 blocks under a key and a nonce, as many as were asked for.
/// A contract sees the words still to come.
#[derive(Drop)]
pub struct KeyedTape {
    key: [u8; 32],
    nonce: [u8; 12],
    count: u32,
    next: u32,
    block: [u32; 16],
}

impl Model for KeyedTape {
    ghost use Rattle.std.specs.Prelude.{◌≡◌, ℕ, ◌-◌, ◌/◌, ◌≤◌, List};
    ghost use Rattle.tape.specs.Keyed.{tape_block, keyed_words};

    ghost Value = { List ℕ };

    ghost view = { λ t. keyed_words t.key t.nonce t.next (t.count - t.next) };

    ghost invariant = { λ t. record {
      within : t.next ≤ t.count;
      current : t.block ≡ tape_block t.key t.nonce (t.next / 16);
    } };
}

impl KeyedTape {
    /// A tape of `count` words.
    pub fn new(key: [u8; 32], nonce: [u8; 12], count: u32) -> KeyedTape
        ensures { result ≡ keyed_words key nonce 0 count }
    {
        let block = chacha20_words(&key, 0, &nonce);
        KeyedTape {
            key,
            nonce,
            count,
            next: 0,
            block,
        }
    }
}

impl Tape for KeyedTape {
    ghost words = { λ t. t };

    fn more(&self) -> bool {
        self.next < self.count
    }

    fn draw(&mut self) -> Result<u32, TapeFault> {
        if self.next >= self.count {
            return Err(TapeFault::Spent);
        }
        let word = self.block[(self.next % 16) as usize];
        self.next += 1;
        if self.next % 16 == 0 {
            self.block = chacha20_words(&self.key, self.next / 16, &self.nonce);
        }
        Ok(word)
    }
}
