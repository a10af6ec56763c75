/// An operation on two 64-bit integers.
#[derive(Clone, Copy, Debug, PartialEq, Eq)]
pub enum Arith {
    Add,
    Sub,
    Mul,
    /// The quotient rounded down.
    Div,
    /// The rest of that quotient, with the divisor's sign.
    Rem,
}
