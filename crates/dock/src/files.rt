//! Key files and files of words.
use crate::trouble::{FileUse, Trouble};
use console::files::read_file;

/// A key file of two parts, one after the other.
pub(crate) fn read_keys<'a, const N: usize, const M: usize>(
    rt: &HostRuntime,
    path: &'a str,
    wanted: FileUse,
) -> Result<([u8; N], [u8; M]), Trouble<'a>> {
    let bytes = read_file(rt, path)?;
    let found = bytes.len();
    if let Some((first, second)) = bytes.as_slice().split_first_chunk::<N>()
        && let Ok(second) = <[u8; M]>::try_from(second)
    {
        return Ok((*first, second));
    }
    Err(Trouble::Length(path, found, wanted))
}

/// A file of words of four bytes, the lowest byte first.
pub(crate) fn read_words<'a>(rt: &HostRuntime, path: &'a str) -> Result<Vec<u32>, Trouble<'a>> {
    let bytes = read_file(rt, path)?;
    let (words, []) = bytes.as_slice().as_chunks::<4>() else {
        return Err(Trouble::Length(path, bytes.len(), FileUse::Words));
    };
    Ok(
        words
            .iter()
            .map(|word| u32::from_le_bytes(*word))
            .collect(rt.alloc())?,
    )
}
