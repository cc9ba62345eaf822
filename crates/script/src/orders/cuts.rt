//! How a text is cut into lines and words, byte by byte.

ghost use Rattle.std.specs.Prelude.{◌≡◌, ◌<◌, ◌==◌, ◌∷◌, length};
ghost use Rattle.std.specs.List.{position};
ghost use Rattle.std.specs.Str.Lines.{lines, strip_carriage_return};
ghost use Rattle.script.specs.inside.Cuts.{IsCut};

/// The place of the first byte that is this one.
fn place_of(bytes: &[u8], byte: u8) -> Option<usize>
    ensures { result ≡ position (λ b. b == byte) bytes.now }
{
    bytes.iter().position(|b| *b == byte)
}

/// A text up to its first byte that is this ASCII one, and what stands behind that.
pub(crate) fn cut(text: &str, byte: u8) -> Option<(&str, &str)>
    requires { byte < 128 }
    ensures { IsCut byte text.now result }
{
    let at = place_of(text.as_bytes(), byte)?;
    Some((&text[..at], &text[at + 1..]))
}

/// The first line of a text that is not empty, and what stands behind it.
pub(crate) fn first_line(text: &str) -> (&str, &str)
    requires { 0 < length text.now }
    ensures first { lines text.now ≡ result.0.now ∷ lines result.1.now }
    ensures shorter { length result.1.now < length text.now }
{
    match cut(text, b'\n') {
        Some((line, behind)) => (without_return(line), behind),
        None => (text, ""),
    }
}

/// A line without the carriage return at its end.
fn without_return(line: &str) -> &str
    ensures { result.now ≡ strip_carriage_return line.now }
{
    match line.as_bytes() {
        [.., b'\r'] => &line[..line.len() - 1],
        _ => line,
    }
}
