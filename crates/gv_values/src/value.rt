ghost use Rattle.std.specs.Prelude.{◌≡◌, IfOk};
ghost use Rattle.gv_values.specs.Value.{value_of_scalar, scalar_of_value, value_eq, scalars_eq};

use crate::fault::FaultKind;
use crate::list::List;
use crate::scalar::Scalar;
use std::alloc::{AllocError, Global};

/// What an expression means and a greenlet ends with: a scalar, or a flat list of at most `MOST_ELEMENTS`.
#[derive(Debug, Drop)]
pub enum Value {
    /// `none`.
    Nothing,
    Bool(bool),
    Int(i64),
    /// A fault that is held as a value.
    Fault(FaultKind),
    /// The handle of a greenlet, by its number.
    Greenlet(u32),
    /// The handle of a job, by its number.
    Job(u32),
    List(List),
}

/// How a greenlet ended, and what arrives at a switch.
#[derive(Debug, Drop)]
pub enum Outcome {
    Value(Value),
    Fault(FaultKind),
}

/// What can come to an end: a greenlet, or a job of a native pool.
#[derive(Clone, Copy, Debug, PartialEq, Eq)]
pub enum Whom {
    Greenlet(u32),
    Job(u32),
}

impl From<Scalar> for Value {
    ghost from_gives = { λ scalar value. value ≡ value_of_scalar scalar };

    fn from(scalar: Scalar) -> Value {
        match scalar {
            Scalar::Nothing => Value::Nothing,
            Scalar::Bool(b) => Value::Bool(b),
            Scalar::Int(i) => Value::Int(i),
            Scalar::Fault(kind) => Value::Fault(kind),
            Scalar::Greenlet(g) => Value::Greenlet(g),
            Scalar::Job(j) => Value::Job(j),
        }
    }
}

impl Value {
    /// The value as a scalar; none exactly where it is a list.
    pub fn scalar(&self) -> Option<Scalar>
        ensures { result ≡ scalar_of_value self.now }
    {
        match self {
            Value::Nothing => Some(Scalar::Nothing),
            Value::Bool(b) => Some(Scalar::Bool(*b)),
            Value::Int(i) => Some(Scalar::Int(*i)),
            Value::Fault(kind) => Some(Scalar::Fault(*kind)),
            Value::Greenlet(g) => Some(Scalar::Greenlet(*g)),
            Value::Job(j) => Some(Scalar::Job(*j)),
            Value::List(_) => None,
        }
    }

    /// A copy of the value. `AllocError`: memory is wanting.
    pub fn copy(&self, alloc: Global) -> Result<Value, AllocError>
        ensures { IfOk result (λ value. value ≡ self.now) }
    {
        match self {
            Value::Nothing => Ok(Value::Nothing),
            Value::Bool(b) => Ok(Value::Bool(*b)),
            Value::Int(i) => Ok(Value::Int(*i)),
            Value::Fault(kind) => Ok(Value::Fault(*kind)),
            Value::Greenlet(g) => Ok(Value::Greenlet(*g)),
            Value::Job(j) => Ok(Value::Job(*j)),
            Value::List(list) => Ok(Value::List(list.copy(alloc)?)),
        }
    }

    /// Whether the two are of one kind and have the same content.
    pub fn equals(&self, other: &Value) -> bool
        ensures { result ≡ value_eq self.now other.now }
    {
        match (self, other) {
            (Value::Nothing, Value::Nothing) => true,
            (Value::Bool(a), Value::Bool(b)) => a == b,
            (Value::Int(a), Value::Int(b)) => a == b,
            (Value::Fault(a), Value::Fault(b)) => a == b,
            (Value::Greenlet(a), Value::Greenlet(b)) => a == b,
            (Value::Job(a), Value::Job(b)) => a == b,
            (Value::List(a), Value::List(b)) => are_equal(a.scalars(), b.scalars()),
            _ => false,
        }
    }
}

fn are_equal(a: &[Scalar], b: &[Scalar]) -> bool
    ensures { result ≡ scalars_eq a.now b.now }
{
    a == b
}

impl Outcome {
    /// A copy of the outcome. `AllocError`: memory is wanting.
    pub fn copy(&self, alloc: Global) -> Result<Outcome, AllocError>
        ensures { IfOk result (λ outcome. outcome ≡ self.now) }
    {
        match self {
            Outcome::Value(value) => Ok(Outcome::Value(value.copy(alloc)?)),
            Outcome::Fault(kind) => Ok(Outcome::Fault(*kind)),
        }
    }
}
