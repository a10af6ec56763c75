ghost use Rattle.std.specs.Prelude.{◌≡◌, Some, None, if◌then◌else◌, IsTrue};
ghost use Rattle.std.specs.List.{list_all};
ghost use Rattle.gv_values.specs.Name.{is_name, is_name_byte};

use crate::limits::MOST_NAME_BYTES;
use std::marker::Model;

/// A name of an object, a function or a local: 1 to `MOST_NAME_BYTES` bytes, the first a
/// lower-case letter, the others lower-case letters, digits or `_`.
#[derive(Clone, Copy, Debug, PartialEq, Eq)]
pub struct Name {
    bytes: [u8; MOST_NAME_BYTES],
    count: usize,
}

impl Model for Name {
    ghost use Rattle.std.specs.Prelude.{ℕ, List};

    ghost Value = { List ℕ };

    ghost use Rattle.gv_values.specs.NameParts.{name_view, IsStored, name_parts, name_parts_ok};

    ghost view = { name_view };

    ghost invariant = { IsStored };

    ghost inverse = { name_parts };

    ghost inverse_ok = { name_parts_ok };
}

impl Name {
    /// The name with these bytes; none exactly where they have not its form.
    pub fn new(bytes: &[u8]) -> Option<Name>
        ensures { result ≡ (if is_name bytes.now then Some bytes.now else None) }
    {
        if !is_name_text(bytes) {
            return None;
        }
        let mut name = [0; MOST_NAME_BYTES];
        name[..bytes.len()].copy_from_slice(bytes);
        Some(Name {
            bytes: name,
            count: bytes.len(),
        })
    }

    /// The bytes.
    pub fn bytes(&self) -> &[u8]
        ensures same { result.now ≡ self.now }
        ensures name { IsTrue (is_name self.now) }
    {
        &self.bytes[..self.count]
    }
}

fn is_name_text(bytes: &[u8]) -> bool
    ensures { result ≡ is_name bytes.now }
{
    match bytes {
        [] => false,
        [first, rest @ ..] => {
            first.is_ascii_lowercase() && are_name_bytes(rest) && rest.len() < MOST_NAME_BYTES
        }
    }
}

fn are_name_bytes(bytes: &[u8]) -> bool
    ensures { result ≡ list_all is_name_byte bytes.now }
{
    bytes.iter().all(|b| b.is_ascii_lowercase() || b.is_ascii_digit() || *b == b'_')
}
