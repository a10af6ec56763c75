/// Why the bytes of a connection are refused.
#[derive(Clone, Copy, Debug, PartialEq, Eq, Drop)]
pub enum Refusal {
    /// 400 Bad Request (RFC 9110, section 15.5.1): the bytes are no request of the grammar.
    BadRequest,
    /// 413 Request Entity Too Large (RFC 9110, section 15.5.14): the body is announced or sent with more than
    /// `MOST_BODY` bytes.
    TooLarge,
    /// 414 Request URI Too Long (RFC 9110, section 15.5.15): the first line does not end within `MOST_FIRST_LINE`
    /// bytes.
    TooLong,
}
