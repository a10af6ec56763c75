//! Words of digits and words of bytes, as command lines and scenarios compare them.
ghost use Rattle.std.specs.Prelude.{◌≡◌, bytes_eq};
ghost use Rattle.std.specs.List.{list_all};
ghost use Rattle.gv_values.specs.Name.{is_digit};
ghost use Rattle.gv_values.specs.Digits.{is_plain_number};

/// Whether the text is `0`, or digits that begin with another.
pub fn is_plain_number(text: &[u8]) -> bool
    ensures { result ≡ is_plain_number text.now }
{
    match text {
        [] => false,
        [b] => b.is_ascii_digit(),
        [b, rest @ ..] => matches!(*b, b'1'..=b'9') && are_digits(rest),
    }
}

/// Whether each byte is a digit.
pub fn are_digits(text: &[u8]) -> bool
    ensures { result ≡ list_all is_digit text.now }
{
    text.iter().all(|b| b.is_ascii_digit())
}

/// Whether two texts are the same.
pub fn same_bytes(a: &[u8], b: &[u8]) -> bool
    ensures { result ≡ bytes_eq a.now b.now }
{
    a == b
}
