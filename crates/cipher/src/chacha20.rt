//! The ChaCha20 block function of RFC 8439.
ghost use Rattle.std.specs.Prelude.{◌≡◌, ℕ, ◌+◌, ◌<◌, ◌≤◌, length};
ghost use Rattle.std.specs.Simd.Lanes.{zip2};
ghost use Rattle.cipher.specs.Chacha20.{add32, add_xor_roll_of, quarter_round_of, column_round_of, diagonal_round_of, double_rounds, word_at, initial_state_of, block_words, serialised as serialised_words, block};

use std::array;

/// One line of the quarter round: `a += b; d ^= a; d <<<= n`.
fn add_xor_roll(s: &mut [u32; 16], a: usize, b: usize, d: usize, n: u32)
    requires { (a < 16) × ((b < 16) × ((d < 16) × ((0 < n) × (n < 32)))) }
    ensures { s.new ≡ add_xor_roll_of a b d n s.old }
{
    s[a] = s[a].wrapping_add(s[b]);
    s[d] = (s[d] ^ s[a]).rotate_left(n);
}

fn quarter_round(s: &mut [u32; 16], a: usize, b: usize, c: usize, d: usize)
    requires { (a < 16) × ((b < 16) × ((c < 16) × (d < 16))) }
    ensures { s.new ≡ quarter_round_of a b c d s.old }
{
    add_xor_roll(s, a, b, d, 16);
    add_xor_roll(s, c, d, b, 12);
    add_xor_roll(s, a, b, d, 8);
    add_xor_roll(s, c, d, b, 7);
}

// One function over a table of lanes takes more than three times as long, and every beat seals; so the two rounds are
// written out.
fn column_round(s: &mut [u32; 16])
    ensures { s.new ≡ column_round_of s.old }
{
    quarter_round(s, 0, 4, 8, 12);
    quarter_round(s, 1, 5, 9, 13);
    quarter_round(s, 2, 6, 10, 14);
    quarter_round(s, 3, 7, 11, 15);
}

fn diagonal_round(s: &mut [u32; 16])
    ensures { s.new ≡ diagonal_round_of s.old }
{
    quarter_round(s, 0, 5, 10, 15);
    quarter_round(s, 1, 6, 11, 12);
    quarter_round(s, 2, 7, 8, 13);
    quarter_round(s, 3, 4, 9, 14);
}

fn ten_double_rounds(s: &mut [u32; 16])
    ensures { s.new ≡ double_rounds 10 s.old }
{
    for _i in 0..10usize {
        column_round(s);
        diagonal_round(s);
    }
}

fn initial_state(key: &[u8; 32], counter: u32, nonce: &[u8; 12]) -> [u32; 16]
    ensures { result ≡ initial_state_of key.now counter nonce.now }
{
    let (key, _) = key.as_chunks::<4>();
    let (nonce, _) = nonce.as_chunks::<4>();
    [
        0x61707865,
        0x3320646e,
        0x79622d32,
        0x6b206574,
        u32::from_le_bytes(key[0]),
        u32::from_le_bytes(key[1]),
        u32::from_le_bytes(key[2]),
        u32::from_le_bytes(key[3]),
        u32::from_le_bytes(key[4]),
        u32::from_le_bytes(key[5]),
        u32::from_le_bytes(key[6]),
        u32::from_le_bytes(key[7]),
        counter,
        u32::from_le_bytes(nonce[0]),
        u32::from_le_bytes(nonce[1]),
        u32::from_le_bytes(nonce[2]),
    ]
}

fn sums(a: &[u32; 16], b: &[u32; 16]) -> [u32; 16]
    ensures { result ≡ zip2 add32 a.now b.now }
{
    array::from_fn(|i| a[i].wrapping_add(b[i]))
}

fn serialised(words: &[u32; 16]) -> [u8; 64]
    ensures { result ≡ serialised_words words.now }
{
    let bytes = words.map(u32::to_le_bytes);
    let mut out = [0; 64];
    out.copy_from_slice(bytes.as_flattened());
    out
}

/// The sixteen words of one block.
pub fn chacha20_words(key: &[u8; 32], counter: u32, nonce: &[u8; 12]) -> [u32; 16]
    ensures { result ≡ block_words key.now counter nonce.now }
{
    let first = initial_state(key, counter, nonce);
    let mut state = first;
    ten_double_rounds(&mut state);
    sums(&state, &first)
}

/// The 64 bytes of one block: its words, the lowest byte of each first.
pub fn chacha20_block(key: &[u8; 32], counter: u32, nonce: &[u8; 12]) -> [u8; 64]
    ensures { result ≡ block key.now counter nonce.now }
{
    serialised(&chacha20_words(key, counter, nonce))
}
