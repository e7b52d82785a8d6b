//! The ends that the command line names, read from their files.
use crate::files::{read_keys, read_words};
use crate::options::{CardChoice, SealChoice, TapeChoice};
use crate::trouble::{FileUse, Trouble};
use card::byte::ByteCard;
use card::window::WindowCard;
use console::files::{read_file, replace_file};

/// A card file in memory.
#[derive(Drop)]
pub(crate) struct Image<'a> {
    choice: CardChoice<'a>,
    bytes: Vec<u8>,
}

impl<'a> Image<'a> {
    pub(crate) fn read(rt: &HostRuntime, choice: CardChoice<'a>) -> Result<Image<'a>, Trouble<'a>> {
        let bytes = read_file(rt, choice.path)?;
        Ok(Image { choice, bytes })
    }

    /// The window of the image as a card.
    pub(crate) fn card(&mut self) -> WindowCard<ByteCard<'_>> {
        let start = self.choice.start;
        let len = self.choice.len;
        WindowCard::new(ByteCard::new(self.bytes.as_mut_slice()), start, len)
    }

    pub(crate) fn write_back(&self, rt: &HostRuntime) -> Result<(), Trouble<'a>> {
        Ok(replace_file(rt, self.choice.path, self.bytes.as_slice())?)
    }
}

// An enum and no Option: the bench seal is a seal, and not the want of one.
#[derive(Clone, Copy)]
pub(crate) enum SealKeys {
    Bench,
    Street([u8; 32], [u8; 16]),
}

impl SealKeys {
    pub(crate) fn read<'a>(
        rt: &HostRuntime,
        seal: SealChoice<'a>,
    ) -> Result<SealKeys, Trouble<'a>> {
        match seal {
            SealChoice::Bench => Ok(SealKeys::Bench),
            SealChoice::Street(path) => {
                let (body, tag) = read_keys(rt, path, FileUse::StreetKeys)?;
                Ok(SealKeys::Street(body, tag))
            }
        }
    }
}

#[derive(Drop)]
pub(crate) enum TapeWords {
    Words(Vec<u32>),
    Keyed([u8; 32], [u8; 12], u32),
}

impl TapeWords {
    pub(crate) fn read<'a>(
        rt: &HostRuntime,
        tape: TapeChoice<'a>,
    ) -> Result<TapeWords, Trouble<'a>> {
        match tape {
            TapeChoice::Words(path) => Ok(TapeWords::Words(read_words(rt, path)?)),
            TapeChoice::Keyed(path, count) => {
                let (key, nonce) = read_keys(rt, path, FileUse::TapeKeys)?;
                Ok(TapeWords::Keyed(key, nonce, count))
            }
        }
    }
}
