//! The forms of texts that are values as they stand.
ghost use Rattle.std.specs.Prelude.{◌≡◌};
ghost use Rattle.std.specs.List.{list_all};
ghost use Rattle.std.specs.Int.{is_in_range};
ghost use Rattle.ld_value.specs.Values.{is_text as spec_is_text, is_uri as spec_is_uri};

/// The greatest length of a text value or a uri, in bytes.
pub const MAX_TEXT: usize = 4_096;

/// Whether the text is a value of the datatypes string and text.
pub(crate) fn is_text(text: &[u8]) -> bool
    ensures { result ≡ spec_is_text text.now }
{
    text.len() <= MAX_TEXT
}

/// Whether the text is a uri: 1 to `MAX_TEXT` bytes that are visible ASCII.
pub fn is_uri(text: &[u8]) -> bool
    ensures { result ≡ spec_is_uri text.now }
{
    if text.is_empty() || text.len() > MAX_TEXT {
        return false;
    }
    all_visible(text)
}

/// Whether each byte is visible ASCII.
fn all_visible(text: &[u8]) -> bool
    ensures { result ≡ list_all (is_in_range 0x21 0x7E) text.now }
{
    for byte in text {
        if !byte.is_ascii_graphic() {
            return false;
        }
    }
    true
}
