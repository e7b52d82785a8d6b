//! A body: what a record keeps sealed, a block number and that block's value.
ghost use Rattle.std.specs.Prelude.{◌≡◌};
ghost use Rattle.layout.specs.Layouts.{body_of, block_in, value_in, no_block, zeros, dummy_body, BodyApart};

use crate::names::Block;
use crate::numbers::first_number;

/// A block and its value, as they are sealed: 52 bytes.
#[derive(Clone, Copy, PartialEq, Eq, Debug)]
pub struct Body {
    pub block: Block,
    pub value: [u8; 48],
}

impl Body {
    /// The body that holds no block.
    pub fn dummy() -> Body
        ensures { (result.block.0 ≡ no_block) × (result.value ≡ zeros) }
    {
        Body {
            block: Block(u32::MAX),
            value: [0; 48],
        }
    }

    // Named as std names `to_le_bytes`: `From` would not say that these bytes are a layout.
    pub fn to_bytes(self) -> [u8; 52]
        ensures laid_out { result ≡ body_of self.block.0 self.value }
        ensures comes_apart_again { BodyApart self.block.0 self.value result }
    {
        let mut bytes = [0; 52];
        bytes[0..4].copy_from_slice(&self.block.0.to_le_bytes());
        bytes[4..52].copy_from_slice(&self.value);
        bytes
    }

    // Named so for the same reason.
    pub fn from_bytes(bytes: &[u8; 52]) -> Body
        ensures taken_apart { (result.block.0 ≡ block_in bytes.now) × (result.value ≡ value_in bytes.now) }
        ensures goes_together_again { body_of result.block.0 result.value ≡ bytes.now }
    {
        let mut value = [0; 48];
        value.copy_from_slice(&bytes[4..52]);
        Body {
            block: Block(first_number(bytes)),
            value,
        }
    }
}
