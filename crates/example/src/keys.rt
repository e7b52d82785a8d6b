ghost use Rattle.std.specs.Prelude.{◌≡◌};
ghost use Rattle.seal.specs.Schemes.{rules_by, street_cover, street_tag};
ghost use Rattle.tape.specs.Keyed.{keyed_words};

use seal::seal::Seal;
use seal::street::StreetSeal;
use tape::keyed::KeyedTape;
use tape::tape::Tape;

/// Keys for the seal and the tape.
#[derive(Clone, Copy)]
pub struct Keys {
    pub body: [u8; 32],
    pub tag: [u8; 16],
    pub tape: [u8; 32],
    pub nonce: [u8; 12],
}

/// The keys of the example: bytes that count up. Keys in use are random and stay secret.
pub const EXAMPLE_KEYS: Keys = Keys {
    body: *b"\x00\x01\x02\x03\x04\x05\x06\x07\x08\x09\x0a\x0b\x0c\x0d\x0e\x0f\x10\x11\x12\x13\x14\x15\x16\x17\x18\x19\x1a\x1b\x1c\x1d\x1e\x1f",
    tag: *b" !\"#$%&'()*+,-./",
    tape: *b"@ABCDEFGHIJKLMNOPQRSTUVWXYZ[\\]^_",
    nonce: *b"`abcdefghijk",
};

impl Keys {
    /// The street seal under these keys.
    pub fn seal(&self) -> StreetSeal
        ensures { ⟦<StreetSeal as Seal>⟧.rules result ≡ rules_by (street_cover self.now.body) (street_tag self.now.tag) }
    {
        StreetSeal::new(self.body, self.tag)
    }

    /// The keyed tape of so many words under these keys.
    pub fn tape(&self, words: u32) -> KeyedTape
        ensures { ⟦<KeyedTape as Tape>⟧.words result ≡ keyed_words self.now.tape self.now.nonce 0 words }
    {
        KeyedTape::new(self.tape, self.nonce, words)
    }
}
