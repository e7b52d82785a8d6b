//! SipHash-2-4: a tag of 64 bits for a message under a key of 16 bytes.
ghost use Rattle.std.specs.Prelude.{◌≡◌, ℕ, ◌+◌, ◌/◌, ◌^◌, ◌<◌, ◌≤◌, length, drop, slice_index};
ghost use Rattle.layout.specs.Numbers.{number};
ghost use Rattle.cipher.specs.Siphash.{sip_round, compressed, compressed_words, word_at, last_word, initialised, finalised, siphash as siphash_tag};

#[derive(Clone, Copy)]
struct SipState {
    v0: u64,
    v1: u64,
    v2: u64,
    v3: u64,
}

impl SipState {
    fn new(key: &[u8; 16]) -> SipState
        ensures { result ≡ initialised key.now }
    {
        let (words, _) = key.as_chunks::<8>();
        let k0 = u64::from_le_bytes(words[0]);
        let k1 = u64::from_le_bytes(words[1]);
        SipState {
            v0: k0 ^ 0x736f6d6570736575,
            v1: k1 ^ 0x646f72616e646f6d,
            v2: k0 ^ 0x6c7967656e657261,
            v3: k1 ^ 0x7465646279746573,
        }
    }

    fn round(self) -> SipState
        ensures { result ≡ sip_round self }
    {
        let v0 = self.v0.wrapping_add(self.v1);
        let v2 = self.v2.wrapping_add(self.v3);
        let v1 = self.v1.rotate_left(13) ^ v0;
        let v3 = self.v3.rotate_left(16) ^ v2;
        let v0 = v0.rotate_left(32);
        let v2 = v2.wrapping_add(v1);
        let v0 = v0.wrapping_add(v3);
        let v1 = v1.rotate_left(17) ^ v2;
        let v3 = v3.rotate_left(21) ^ v0;
        let v2 = v2.rotate_left(32);
        SipState { v0, v1, v2, v3 }
    }

    fn compress(self, m: u64) -> SipState
        ensures { result ≡ compressed m self }
    {
        let mixed = SipState {
            v3: self.v3 ^ m,
            ..self
        };
        let rounded = mixed.round().round();
        SipState {
            v0: rounded.v0 ^ m,
            ..rounded
        }
    }

    fn compress_words(self, message: &[u8]) -> SipState
        ensures { result ≡ compressed_words message.now (length message.now / 8) self }
    {
        let (words, _) = message.as_chunks::<8>();
        let mut state = self;
        for word in words {
            state = state.compress(u64::from_le_bytes(*word));
        }
        state
    }

    fn finish(self) -> u64
        ensures { result ≡ finalised self }
    {
        let marked = SipState {
            v2: self.v2 ^ 0xff,
            ..self
        };
        let last = marked.round().round().round().round();
        last.v0 ^ last.v1 ^ last.v2 ^ last.v3
    }
}

/// The fewer than eight bytes past the last whole word, and at the top the length.
fn last_word(message: &[u8]) -> u64
    ensures { result ≡ last_word message.now }
{
    let (_, rest) = message.as_chunks::<8>();
    let mut word = [0; 8];
    word[0..rest.len()].copy_from_slice(rest);
    word[7] = (message.len() % 256) as u8;
    u64::from_le_bytes(word)
}

/// The tag of `message` under `key`.
pub fn siphash24(key: &[u8; 16], message: &[u8]) -> u64
    ensures { result ≡ siphash_tag key.now message.now }
{
    SipState::new(key)
        .compress_words(message)
        .compress(last_word(message))
        .finish()
}
