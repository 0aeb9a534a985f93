ghost use Rattle.std.specs.Prelude.{◌≡◌, ◌==◌, ◌<◌, length, position, option_map, IfSome};
ghost use Rattle.net_file.specs.Cut.{cut_at};

// The index of the first such byte.
fn place_of(bytes: &[u8], byte: u8) -> Option<usize>
    ensures value { result ≡ position (λ b. b == byte) bytes.now }
    ensures bound { IfSome result (λ at. at < length bytes.now) }
{
    bytes.iter().position(|b| *b == byte)
}

/// The bytes before the first such byte, and those behind it.
pub fn cut(bytes: &[u8], byte: u8) -> Option<(&[u8], &[u8])>
    ensures { option_map (λ p. (p.0.now, p.1.now)) result ≡ cut_at byte bytes.now }
{
    let at = place_of(bytes, byte)?;
    Some((&bytes[..at], &bytes[at + 1..]))
}
