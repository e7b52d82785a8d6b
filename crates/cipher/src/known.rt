//! Published answers, shown of the definitions that the code is held to.
ghost use Rattle.std.specs.Prelude.{◌≡◌};
ghost use Rattle.cipher.specs.Known.{ChaCha20Known, SipHashKnown};

fn chacha20_answer_stands()
    ensures { ChaCha20Known }
{}

fn siphash24_answer_stands()
    ensures { SipHashKnown }
{}

/// Holds two theorems in its contract: a published answer of each definition.
// A number, so that there is a body which a wrong version can turn.
pub fn known_answers_stand() -> u8
    ensures zero { result ≡ 0 }
    ensures chacha20 { ChaCha20Known }
    ensures siphash24 { SipHashKnown }
{
    chacha20_answer_stands();
    siphash24_answer_stands();
    0
}
