//! A published vector: what is put in, and what is to come out.
ghost use Rattle.std.specs.Prelude.{Decides};
ghost use Rattle.vectors.specs.Agreement.{BlockAgrees, TagAgrees, Agrees};

use cipher::chacha20::chacha20_block;
use cipher::siphash::siphash24;
use hex::{FromHex, FromHexError};
use std::alloc::{AllocError, Global};
use thiserror::Error;

/// Why a line is no vector.
#[derive(Debug, Drop, Error)]
pub(crate) enum LineFault {
    #[error("no memory is left")]
    Memory(#[from(alloc)] AllocError),
    #[error("expected chacha20 KEY COUNTER NONCE BLOCK or siphash KEY MESSAGE TAG")]
    Fields,
    #[error("the block counter is no number below 2^32")]
    Counter,
    #[error("the {0} is not in hexadecimal")]
    NotHex(&'static str),
    #[error("the {0} is not {1} bytes in hexadecimal")]
    NotBytes(&'static str, usize),
}

#[derive(Drop)]
pub(crate) struct BlockVector {
    key: [u8; 32],
    counter: u32,
    nonce: [u8; 12],
    block: [u8; 64],
}

#[derive(Drop)]
pub(crate) struct TagVector {
    key: [u8; 16],
    message: Vec<u8>,
    tag: u64,
}

#[derive(Drop)]
pub(crate) enum Vector {
    Block(BlockVector),
    Tag(TagVector),
}

fn sized<const N: usize>(text: &str, field: &'static str) -> Result<[u8; N], LineFault> {
    <[u8; N]>::from_hex(text).map_err(|_| LineFault::NotBytes(field, N))
}

impl BlockVector {
    fn read(key: &str, counter: &str, nonce: &str, block: &str) -> Result<BlockVector, LineFault> {
        let Ok(counter) = counter.parse::<u32>() else {
            return Err(LineFault::Counter);
        };
        Ok(BlockVector {
            key: sized::<32>(key, "key")?,
            counter,
            nonce: sized::<12>(nonce, "nonce")?,
            block: sized::<64>(block, "block")?,
        })
    }

    fn agrees(&self) -> bool
        ensures { Decides result (BlockAgrees self.now) }
    {
        chacha20_block(&self.key, self.counter, &self.nonce) == self.block
    }
}

impl TagVector {
    fn read(heap: Global, key: &str, message: &str, tag: &str) -> Result<TagVector, LineFault> {
        let digits = if message == "-" { "" } else { message };
        // Looked at first, so that a message that is no hex takes no memory, however long it is.
        if !digits
            .as_bytes()
            .iter()
            .all(|digit| digit.is_ascii_hexdigit())
        {
            return Err(LineFault::NotHex("message"));
        }
        let message = match hex::decode(heap, digits) {
            Ok(message) => message,
            Err(FromHexError::OutOfMemory) => return Err(LineFault::Memory(AllocError)),
            Err(_) => return Err(LineFault::NotHex("message")),
        };
        let key = sized::<16>(key, "key")?;
        let tag = u64::from_le_bytes(sized::<8>(tag, "tag")?);
        Ok(TagVector { key, message, tag })
    }

    fn agrees(&self) -> bool
        ensures { Decides result (TagAgrees self.now) }
    {
        siphash24(&self.key, self.message.as_slice()) == self.tag
    }
}

impl Vector {
    /// The vector that a line states; `-` stands for the empty message.
    pub(crate) fn read(heap: Global, line: &str) -> Result<Vector, LineFault> {
        let fields = line.split_whitespace().collect::<Vec<&str>>(heap)?;
        match fields.as_slice() {
            ["chacha20", key, counter, nonce, block] => Ok(Vector::Block(BlockVector::read(
                key, counter, nonce, block,
            )?)),
            ["siphash", key, message, tag] => Ok(Vector::Tag(TagVector::read(
                heap, key, message, tag,
            )?)),
            _ => Err(LineFault::Fields),
        }
    }

    /// The name of what the vector is of.
    pub(crate) fn name(&self) -> &'static str {
        match self {
            Vector::Block(_) => "ChaCha20 block",
            Vector::Tag(_) => "SipHash-2-4",
        }
    }

    /// Whether the cipher gives what was published.
    pub(crate) fn agrees(&self) -> bool
        ensures { Decides result (Agrees self.now) }
    {
        match self {
            Vector::Block(v) => v.agrees(),
            Vector::Tag(v) => v.agrees(),
        }
    }
}
