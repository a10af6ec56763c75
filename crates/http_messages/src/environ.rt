//! The environ of a request (PEP 3333): keys and values in order.
ghost use Rattle.std.specs.Prelude.{◌≡◌, ◌<◌, ◌++◌, [], ◌∷◌, false, fold, IfOk, OnOk, codes, decimal, if◌then◌else◌};
ghost use Rattle.std.specs.List.{after_first, before_first, list_any, position};
ghost use Rattle.std.specs.Option.{option_copied};
ghost use Rattle.std.specs.Str.{bytes_eq};
ghost use Rattle.percent_encoding.specs.Percent.{percent_decode};
ghost use Rattle.http_messages.specs.Environ.{environ_of, field_pairs, is_in, is_content_key, is_question, is_underscore, joint, key_byte, key_of, pair_value, pairs_of_class, path_of, request_pairs, with_pair};
ghost use Rattle.http_messages.specs.Fields.{is_of};
ghost use Rattle.http_messages.specs.Tags.{AreMarked, tag_of};

use crate::fields::{Fields, Head};
use crate::request::{Bytes, Headers};
use crate::scan::find_byte;
use crate::sequence::Sequence;
use percent_encoding::percent_decode;
use std::alloc::{AllocError, Global};
use std::marker::Model;

/// Which keys come first: those of the body's type and length.
#[derive(Clone, Copy, Debug, PartialEq, Eq)]
pub enum KeyClass {
    /// CONTENT_TYPE.
    ContentType,
    /// CONTENT_LENGTH.
    ContentLength,
    /// Every other key.
    Other,
}

/// Keys and values in order, which contracts see as their list.
#[derive(Drop)]
pub struct Environ {
    pairs: Vec<(Bytes, Bytes)>,
}

impl Model for Environ {
    ghost use Rattle.std.specs.Prelude.{ℕ, List};

    ghost Value = { List (List ℕ × List ℕ) };

    ghost view = { λ e. e.pairs.items };
}

impl Environ {
    /// The environ of these pairs.
    pub fn from_pairs(pairs: Headers) -> Environ
        ensures { result ≡ pairs }
    {
        Environ {
            pairs: pairs.into_vec(),
        }
    }

    /// The pairs in order.
    pub fn pairs(&self) -> &[(Bytes, Bytes)]
        ensures { result.now ≡ self.now }
    {
        self.pairs.as_slice()
    }

    /// The value of the first pair with this key; `None` exactly where no pair has it.
    pub fn get(&self, key: &[u8]) -> Option<&[u8]>
        ensures { option_copied result ≡ pair_value key.now self.now }
    {
        for pair in &self.pairs {
            if pair.0.items() == key {
                return Some(pair.1.items());
            }
        }
        None
    }
}

/// How many tags keys have.
const TAGS: usize = 256;

/// How many pairs of an environ come from no field.
const REQUEST_PAIRS: usize = 7;

/// Pairs that are added one after the other. The tag of each key has a mark, so that a key whose tag has none is new.
#[derive(Drop)]
struct Gathered {
    pairs: Vec<(Bytes, Bytes)>,
    marks: [u8; TAGS],
}

impl Gathered {
    /// No pairs, with room for so many.
    fn new(alloc: Global, room: usize) -> Result<Gathered, AllocError>
        ensures none { IfOk result (λ new. new.pairs.items ≡ []) }
        ensures marked { IfOk result (λ new. AreMarked new.marks new.pairs.items) }
    {
        Ok(Gathered {
            pairs: Vec::with_capacity(alloc, room)?,
            marks: [0; TAGS],
        })
    }

    /// The environ of the pairs.
    fn into_environ(self) -> Environ
        ensures { result ≡ self.pairs.items }
    {
        let Gathered { pairs, .. } = self;
        Environ { pairs }
    }

    /// Where the first pair with the key stands.
    fn find(&self, key: &[u8]) -> Option<usize>
        requires { AreMarked self.now.marks self.now.pairs.items }
        ensures { result ≡ position (λ p. bytes_eq p.0 key.now) self.now.pairs.items }
    {
        if self.marks[tag_of(key)] == 0 {
            return None;
        }
        find_key(&self.pairs, key)
    }

    /// Appends a pair.
    fn push(&mut self, alloc: Global, key: &[u8], value: &[u8]) -> Result<(), AllocError>
        requires { AreMarked self.old.marks self.old.pairs.items }
        ensures pushed { OnOk result (self.new.pairs.items ≡ self.old.pairs.items ++ (key.now, value.now) ∷ []) }
        ensures marked { OnOk result (AreMarked self.new.marks self.new.pairs.items) }
    {
        self.marks[tag_of(key)] = 1;
        push_pair(alloc, &mut self.pairs, key, value)
    }

    /// Adds a pair: its value goes on behind the one that its key has.
    fn put(&mut self, alloc: Global, key: &[u8], value: &[u8]) -> Result<(), AllocError>
        requires { AreMarked self.old.marks self.old.pairs.items }
        ensures put { OnOk result (self.new.pairs.items ≡ with_pair self.old.pairs.items (key.now, value.now)) }
        ensures marked { OnOk result (AreMarked self.new.marks self.new.pairs.items) }
    {
        match self.find(key) {
            Some(place) => lengthen(&mut self.pairs[place].1, joint(key), value),
            None => self.push(alloc, key, value),
        }
    }

    /// Adds the fields whose keys are of this class, in order; `key` is room to write them.
    fn add_fields(
        &mut self,
        alloc: Global,
        key: &mut Vec<u8>,
        fields: &Fields<'_>,
        class: KeyClass,
    ) -> Result<(), AllocError>
        requires { AreMarked self.old.marks self.old.pairs.items }
        ensures added { OnOk result (self.new.pairs.items ≡ fold with_pair self.old.pairs.items (pairs_of_class class (field_pairs fields.now))) }
        ensures marked { OnOk result (AreMarked self.new.marks self.new.pairs.items) }
    {
        for place in 0..fields.len() {
            let field = fields.at(place);
            self.add_field(alloc, key, field.name, field.value, class)?;
        }
        Ok(())
    }

    /// Adds the field, if its key is of this class; `key` is room to write it.
    fn add_field(
        &mut self,
        alloc: Global,
        key: &mut Vec<u8>,
        name: &[u8],
        value: &[u8],
        class: KeyClass,
    ) -> Result<(), AllocError>
        requires { AreMarked self.old.marks self.old.pairs.items }
        ensures added { OnOk result (self.new.pairs.items ≡ (if is_of class name.now then with_pair self.old.pairs.items (key_of name.now, value.now) else self.old.pairs.items)) }
        ensures marked { OnOk result (AreMarked self.new.marks self.new.pairs.items) }
    {
        if !may_be_of(class, name) || has_underscore(name) {
            return Ok(());
        }
        write_key(key, name)?;
        if !is_in(class, key) {
            return Ok(());
        }
        self.put(alloc, key, value)
    }

    /// Appends to none the pairs that do not come from fields.
    fn push_request_pairs(&mut self, alloc: Global, head: &Head<'_>) -> Result<(), AllocError>
        requires none { self.old.pairs.items ≡ [] }
        requires marked { AreMarked self.old.marks self.old.pairs.items }
        ensures pushed { OnOk result (self.new.pairs.items
            ≡ request_pairs head.now.port head.now.method.now head.now.target.now head.now.minor) }
        ensures marked { OnOk result (AreMarked self.new.marks self.new.pairs.items) }
    {
        self.push(alloc, b"REQUEST_METHOD", head.method)?;
        self.push(alloc, b"SCRIPT_NAME", b"")?;
        self.push_path(alloc, head.target)?;
        self.push(alloc, b"QUERY_STRING", after_question(head.target))?;
        self.push(alloc, b"SERVER_NAME", b"localhost")?;
        self.push_port(alloc, head.port)?;
        self.push_protocol(alloc, head.minor)
    }
}

/// A number below `TAGS` that depends on the key alone. Most keys of one request differ in their length or their last two
/// bytes.
fn tag_of(key: &[u8]) -> usize
    ensures tag { result ≡ tag_of key.now }
    ensures below { result < 256 }
{
    let len = key.len();
    if len < 2 {
        return 0;
    }
    (len % TAGS + 31 * usize::from(key[len - 1]) + 7 * usize::from(key[len - 2])) % TAGS
}

/// Appends to a value what stands between two, and the next.
fn lengthen(value: &mut Bytes, joint: &[u8], more: &[u8]) -> Result<(), AllocError>
    ensures { OnOk result (value.new ≡ value.old ++ joint.now ++ more.now) }
{
    value.extend_from_slice(joint)?;
    value.extend_from_slice(more)
}

/// Where the first pair with the key stands.
fn find_key(pairs: &[(Bytes, Bytes)], key: &[u8]) -> Option<usize>
    ensures { result ≡ position (λ p. bytes_eq p.0 key.now) pairs.now }
{
    pairs
        .iter()
        .position(|pair| is_same_key(pair.0.items(), key))
}

/// Whether two keys are the same. Most that have one length differ in their last byte, which is looked at first.
fn is_same_key(key: &[u8], other: &[u8]) -> bool
    ensures { result ≡ bytes_eq key.now other.now }
{
    if key.len() != other.len() {
        return false;
    }
    if key.len() > 0 && key[key.len() - 1] != other[key.len() - 1] {
        return false;
    }
    key == other
}

/// What stands between the values of repeated fields.
fn joint(key: &[u8]) -> &'static [u8]
    ensures { result.now ≡ joint key.now }
{
    if key == b"HTTP_COOKIE".as_slice() {
        b"; "
    } else {
        b","
    }
}

/// Appends a pair.
fn push_pair(
    alloc: Global,
    pairs: &mut Vec<(Bytes, Bytes)>,
    key: &[u8],
    value: &[u8],
) -> Result<(), AllocError>
    ensures { OnOk result (pairs.new.items ≡ pairs.old.items ++ (key.now, value.now) ∷ []) }
{
    let name = Sequence::copy_of(alloc, key)?;
    let text = Sequence::copy_of(alloc, value)?;
    pairs.push((name, text))?;
    Ok(())
}

/// Whether a name of this length may have a key of this class.
fn may_be_of(class: KeyClass, name: &[u8]) -> bool
    ensures { result ≡ false → is_of class name.now ≡ false }
{
    match class {
        KeyClass::ContentType => name.len() == 12,
        KeyClass::ContentLength => name.len() == 14,
        KeyClass::Other => true,
    }
}

/// Whether the name has `_`.
fn has_underscore(name: &[u8]) -> bool
    ensures { result ≡ list_any is_underscore name.now }
{
    name.iter().any(|b| *b == b'_')
}

/// In upper case, with `_` for `-`.
fn key_byte(byte: u8) -> u8
    ensures { result ≡ key_byte byte }
{
    if byte == b'-' {
        b'_'
    } else {
        byte.to_ascii_uppercase()
    }
}

/// Whether the key stands without `HTTP_`.
fn is_content_key(key: &[u8]) -> bool
    ensures { result ≡ is_content_key key.now }
{
    key == b"CONTENT_TYPE".as_slice() || key == b"CONTENT_LENGTH".as_slice()
}

/// Whether the key is of this class.
fn is_in(class: KeyClass, key: &[u8]) -> bool
    ensures { result ≡ is_in class key.now }
{
    match class {
        KeyClass::ContentType => key == b"CONTENT_TYPE".as_slice(),
        KeyClass::ContentLength => key == b"CONTENT_LENGTH".as_slice(),
        KeyClass::Other => !is_content_key(key),
    }
}

/// Makes `key` the key of a field with this name.
fn write_key(key: &mut Vec<u8>, name: &[u8]) -> Result<(), AllocError>
    ensures { OnOk result (key.new.items ≡ key_of name.now) }
{
    key.clear();
    key.extend_from_slice(b"HTTP_")?;
    for byte in name {
        key.push(key_byte(*byte))?;
    }
    if is_content_key(&key[5..]) {
        key.drain(..5);
    }
    Ok(())
}

/// The path of a target; of `http://authority/path` it begins after the authority.
fn path_of(target: &[u8]) -> &[u8]
    ensures { result.now ≡ path_of target.now }
{
    if !target.starts_with(b"http://") {
        return target;
    }
    let rest = &target[7..];
    let path = &rest[find_byte(rest, b'/')..];
    if path.is_empty() { b"/" } else { path }
}

/// What stands before the `?`.
fn before_question(target: &[u8]) -> &[u8]
    ensures { result.now ≡ before_first is_question target.now }
{
    &target[..find_byte(target, b'?')]
}

/// What stands after the `?`.
fn after_question(target: &[u8]) -> &[u8]
    ensures { result.now ≡ after_first is_question target.now }
{
    let at = find_byte(target, b'?');
    if at < target.len() {
        &target[at + 1..]
    } else {
        b""
    }
}

/// The path with its escapes read.
fn path_info(alloc: Global, target: &[u8]) -> Result<Vec<u8>, AllocError>
    ensures { IfOk result (λ path. path.items ≡ percent_decode (path_of (before_first is_question target.now))) }
{
    let mut path = Vec::new(alloc);
    percent_decode(path_of(before_question(target))).append_to(&mut path)?;
    Ok(path)
}

impl Gathered {
    /// Appends the pair of the path.
    fn push_path(&mut self, alloc: Global, target: &[u8]) -> Result<(), AllocError>
        requires { AreMarked self.old.marks self.old.pairs.items }
        ensures pushed { OnOk result (self.new.pairs.items ≡ self.old.pairs.items
            ++ (codes "PATH_INFO", percent_decode (path_of (before_first is_question target.now))) ∷ []) }
        ensures marked { OnOk result (AreMarked self.new.marks self.new.pairs.items) }
    {
        let path = path_info(alloc, target)?;
        self.push(alloc, b"PATH_INFO", &path)
    }

    /// Appends the pair of the server's port.
    fn push_port(&mut self, alloc: Global, port: u16) -> Result<(), AllocError>
        requires { AreMarked self.old.marks self.old.pairs.items }
        ensures pushed { OnOk result (self.new.pairs.items ≡ self.old.pairs.items ++ (codes "SERVER_PORT", decimal port) ∷ []) }
        ensures marked { OnOk result (AreMarked self.new.marks self.new.pairs.items) }
    {
        let number = format!(in alloc; "{port}")?;
        self.push(alloc, b"SERVER_PORT", number.as_bytes())
    }

    /// Appends the pair of the protocol.
    fn push_protocol(&mut self, alloc: Global, minor: u8) -> Result<(), AllocError>
        requires { AreMarked self.old.marks self.old.pairs.items }
        ensures pushed { OnOk result (self.new.pairs.items ≡ self.old.pairs.items
            ++ (codes "SERVER_PROTOCOL", codes "HTTP/1." ++ decimal minor) ∷ []) }
        ensures marked { OnOk result (AreMarked self.new.marks self.new.pairs.items) }
    {
        let protocol = format!(in alloc; "HTTP/1.{minor}")?;
        self.push(alloc, b"SERVER_PROTOCOL", protocol.as_bytes())
    }
}

/// The environ of the request that the head asks for (PEP 3333, "environ Variables"). The path is decoded (RFC 3986,
/// section 2.1).
pub fn environ_of(alloc: Global, head: &Head<'_>) -> Result<Environ, AllocError>
    ensures { IfOk result (λ environ. environ ≡ environ_of head.now.port head.now.method.now head.now.target.now head.now.minor head.now.fields) }
{
    let mut gathered = Gathered::new(alloc, head.fields.len().saturating_add(REQUEST_PAIRS))?;
    gathered.push_request_pairs(alloc, head)?;
    let mut key = Vec::new(alloc);
    gathered.add_fields(alloc, &mut key, &head.fields, KeyClass::ContentType)?;
    gathered.add_fields(alloc, &mut key, &head.fields, KeyClass::ContentLength)?;
    gathered.add_fields(alloc, &mut key, &head.fields, KeyClass::Other)?;
    Ok(gathered.into_environ())
}
