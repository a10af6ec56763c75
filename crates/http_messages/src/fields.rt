//! The fields of a head, in order of appearance.
ghost use Rattle.std.specs.Prelude.{◌≡◌, ◌<◌, ◌++◌, ◌∷◌, [], Some, IfOk, OnOk, length, slice_get};
ghost use Rattle.std.specs.List.{All};
ghost use Rattle.httparse.specs.Spans.{IsHeaderWithin};
ghost use Rattle.http_messages.specs.Fields.{fields_at};
ghost use Rattle.http_messages.specs.Requests.{values};

use crate::request::Bytes;
use crate::scan::eq_any_case;
use crate::sequence::Sequence;
use httparse::spans::HeaderSpan;
use std::alloc::{AllocError, Global};
use std::marker::Model;

/// The fields of a head, which contracts see as their names and values. Each is a part of the head's bytes.
#[derive(Drop)]
pub struct Fields<'a> {
    head: &'a [u8],
    spans: &'a [HeaderSpan],
}

/// One field.
#[derive(Clone, Copy, Drop)]
pub struct Field<'a> {
    /// Its name, which is the same in any case (RFC 9110, section 5.1).
    pub name: &'a [u8],
    /// Its value, without the blanks around it.
    pub value: &'a [u8],
}

/// A head that was read (RFC 9112, sections 3 and 5), at the server's port.
#[derive(Drop)]
pub struct Head<'a> {
    /// The server's port.
    pub port: u16,
    /// The method (RFC 9112, section 3.1).
    pub method: &'a [u8],
    /// The request's target (section 3.2).
    pub target: &'a [u8],
    /// The minor version of HTTP/1 (section 2.3).
    pub minor: u8,
    /// The fields (section 5).
    pub fields: Fields<'a>,
}

impl<'a> Model for Fields<'a> {
    ghost use Rattle.std.specs.Prelude.{ℕ, List, length};
    ghost use Rattle.std.specs.List.{All};
    ghost use Rattle.httparse.specs.Spans.{IsHeaderWithin};
    ghost use Rattle.http_messages.specs.Fields.{fields_at};

    ghost Value = { List (List ℕ × List ℕ) };

    ghost view = { λ f. fields_at f.head.now f.spans.now };

    ghost invariant = { λ f. All (IsHeaderWithin (length f.head.now)) f.spans.now };
}

impl<'a> Fields<'a> {
    /// The fields that the spans cover.
    pub fn new(head: &'a [u8], spans: &'a [HeaderSpan]) -> Fields<'a>
        requires { All (IsHeaderWithin (length head.now)) spans.now }
        ensures { result ≡ fields_at head.now spans.now }
    {
        Fields { head, spans }
    }

    /// How many there are.
    pub fn len(&self) -> usize
        ensures { result ≡ length self.now }
    {
        self.spans.len()
    }

    /// The field at this place, from 0.
    pub fn at(&self, place: usize) -> Field<'a>
        requires { place < length self.now }
        ensures { slice_get self.now place ≡ Some (result.name.now, result.value.now) }
    {
        let spans = self.spans;
        let span = spans[place];
        Field {
            name: span.name.of(self.head),
            value: span.value.of(self.head),
        }
    }
}

/// The values of the fields of this name, in any case and in order (RFC 9110, section 5.3).
pub fn values(
    alloc: Global,
    fields: &Fields<'_>,
    name: &[u8],
) -> Result<Sequence<Bytes>, AllocError>
    ensures { IfOk result (λ found. found ≡ values name.now fields.now) }
{
    let mut found = Sequence::new(alloc);
    for place in 0..fields.len() {
        let field = fields.at(place);
        if eq_any_case(field.name, name) {
            push_copy(alloc, &mut found, field.value)?;
        }
    }
    Ok(found)
}

/// Appends a copy of the value.
fn push_copy(alloc: Global, found: &mut Sequence<Bytes>, value: &[u8]) -> Result<(), AllocError>
    ensures { OnOk result (found.new ≡ found.old ++ value.now ∷ []) }
{
    found.push(Sequence::copy_of(alloc, value)?)
}
