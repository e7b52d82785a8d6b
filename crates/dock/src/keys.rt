//! How the keys of the two days are shown.
use console::bytes::Hex;
use example::keys::Keys;
use std::io;

/// Prints keys. Keys in use stay secret; these are examples.
pub(crate) fn show_keys(rt: &HostRuntime, keys: &Keys) -> io::Result<()> {
    let body = Hex(&keys.body);
    let tag = Hex(&keys.tag);
    let tape = Hex(&keys.tape);
    let nonce = Hex(&keys.nonce);
    println!(rt; "example keys, known to all; use random ones of your own:")?;
    println!(rt; "  street seal: body key {body}")?;
    println!(rt; "               tag key {tag}")?;
    println!(rt; "  keyed tape:  key {tape}")?;
    println!(rt; "               nonce {nonce}")
}
