//! Texts as bytes: their parts, the numbers that they write, and rows of a fixed length for short ones.
ghost use Rattle.std.specs.Prelude.{◌≡◌, ◌<◌, ◌==◌, ◌-◌, ◌≤◌, ◌++◌, length, position, IfSome, replicate};
ghost use Rattle.std.specs.Option.{option_map};
ghost use Rattle.std.specs.Str.{all_ascii_digits, IsAscii};
ghost use Rattle.stream_ident.specs.Text.{split_once};
ghost use Rattle.stream_ident.specs.Number.{is_numeral, number_of};

/// The bytes before the first separator and those behind it, or `None` where there is no separator.
pub fn split_once(bytes: &[u8], separator: u8) -> Option<(&[u8], &[u8])>
    ensures { option_map (λ parts. (parts.0.now, parts.1.now)) result ≡ split_once separator bytes.now }
{
    let at = place_of(separator, bytes)?;
    Some((&bytes[..at], &bytes[at + 1..]))
}

/// The place of the first such byte.
fn place_of(wanted: u8, bytes: &[u8]) -> Option<usize>
    ensures exact { result ≡ position (λ byte. byte == wanted) bytes.now }
    ensures within { IfSome result (λ at. at < length bytes.now) }
{
    bytes.iter().position(|byte| *byte == wanted)
}

/// The number below 2^64 that the bytes write in decimal, without leading zeros. `None` for everything
/// else.
pub fn parse_number(bytes: &[u8]) -> Option<u64>
    ensures { result ≡ number_of bytes.now }
{
    if !is_numeral(bytes) {
        return None;
    }
    ascii_text(bytes).parse().ok()
}

/// Whether bytes are digits, one at least, and no zero in front of others.
fn is_numeral(bytes: &[u8]) -> bool
    ensures { result ≡ is_numeral bytes.now }
{
    if bytes.is_empty() || (bytes[0] == b'0' && bytes.len() > 1) {
        return false;
    }
    all_digits(bytes)
}

/// Whether each byte is a digit.
fn all_digits(bytes: &[u8]) -> bool
    ensures { result ≡ all_ascii_digits bytes.now }
{
    bytes.iter().all(|byte| byte.is_ascii_digit())
}

/// The row of `N` bytes that begins with the text and has zeros behind it.
pub fn padded<const N: usize>(text: &[u8]) -> [u8; N]
    requires { length text.now ≤ N }
    ensures { result ≡ text.now ++ replicate (N - length text.now) 0 }
{
    let mut row = [0; N];
    row[..text.len()].copy_from_slice(text);
    row
}

/// The text that ASCII bytes are.
pub fn ascii_text(bytes: &[u8]) -> &str
    requires { IsAscii bytes.now }
    ensures { result.now ≡ bytes.now }
{
    let Ok(text) = str::from_utf8(bytes) else {
        unreachable!();
    };
    text
}
