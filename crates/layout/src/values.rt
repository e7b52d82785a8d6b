//! A value as a body holds it: 48 bytes.
ghost use Rattle.std.specs.Prelude.{◌≡◌};
ghost use Rattle.layout.specs.Layouts.{filled as filled_with_zeros, filled_of};

/// A value filled to 48 bytes with zeros; what is longer is cut off there.
pub fn filled(value: &[u8]) -> [u8; 48]
    ensures { result ≡ filled_with_zeros value.now }
{
    let kept = &value[..value.len().min(48)];
    let mut whole = [0; 48];
    whole[..kept.len()].copy_from_slice(kept);
    whole
}

/// A value filled to 48 bytes with zeros, or none where it is longer.
pub fn filled_value(value: &[u8]) -> Option<[u8; 48]>
    ensures { result ≡ filled_of value.now }
{
    if value.len() > 48 {
        return None;
    }
    Some(filled(value))
}
