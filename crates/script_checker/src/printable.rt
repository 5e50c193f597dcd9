//! Bytes that may be printed.
ghost use Rattle.std.specs.Prelude.{◌≡◌, ◌<◌, length, not, position, IfSome};
ghost use Rattle.std.specs.List.{list_all};
ghost use Rattle.std.specs.Option.{option_map};
ghost use Rattle.stream_ident.specs.Alphabet.{is_printable};
ghost use Rattle.script_checker.specs.FaultTexts.{printable_text};

/// Whether a byte may stand in a line.
pub(crate) fn is_printable(byte: u8) -> bool
    ensures { result ≡ is_printable byte }
{
    matches!(byte, b' '..=b'~')
}

/// The place of the first byte that may not stand in a line.
pub(crate) fn unprintable(bytes: &[u8]) -> Option<usize>
    ensures exact { result ≡ position (λ byte. not (is_printable byte)) bytes.now }
    ensures within { IfSome result (λ at. at < length bytes.now) }
{
    bytes.iter().position(|byte| !is_printable(*byte))
}

/// Whether each byte is printable.
fn are_printable(bytes: &[u8]) -> bool
    ensures { result ≡ list_all is_printable bytes.now }
{
    bytes.iter().all(|byte| is_printable(*byte))
}

/// The text that printable bytes are.
pub(crate) fn printable_text(bytes: &[u8]) -> Option<&str>
    ensures { option_map (λ text. text.now) result ≡ printable_text bytes.now }
{
    if !are_printable(bytes) {
        return None;
    }
    let Ok(text) = str::from_utf8(bytes) else {
        unreachable!();
    };
    Some(text)
}
