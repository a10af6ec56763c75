ghost use Rattle.std.specs.Prelude.{◌≡◌};
ghost use Rattle.scenario_grammar.specs.Reading.{head_of};

use gv_values::{Arith, FaultKind};
use scenario_grammar::{Head, Keyword};
use scenario_tree::{Binary, Query, Unary};

/// What a fixed word begins in the place of an expression.
pub fn expression_head(word: Keyword) -> Head
    ensures { result ≡ head_of word }
{
    match word {
        Keyword::Nothing => Head::Nothing,
        Keyword::True => Head::Bool(true),
        Keyword::False => Head::Bool(false),
        Keyword::Current => Head::Current,
        Keyword::GreenletExit => Head::Fault(FaultKind::GreenletExit),
        Keyword::Empty => Head::Fault(FaultKind::Empty),
        Keyword::Full => Head::Fault(FaultKind::Full),
        Keyword::ValueError => Head::Fault(FaultKind::ValueError),
        Keyword::RuntimeError => Head::Fault(FaultKind::RuntimeError),
        Keyword::TypeError => Head::Fault(FaultKind::TypeError),
        Keyword::OverflowError => Head::Fault(FaultKind::OverflowError),
        Keyword::ZeroDivisionError => Head::Fault(FaultKind::ZeroDivisionError),
        Keyword::Error => Head::NumberedFault,
        Keyword::Plus => Head::Binary(Binary::Arithmetic(Arith::Add)),
        Keyword::Minus => Head::Binary(Binary::Arithmetic(Arith::Sub)),
        Keyword::Times => Head::Binary(Binary::Arithmetic(Arith::Mul)),
        Keyword::Slash => Head::Binary(Binary::Arithmetic(Arith::Div)),
        Keyword::Percent => Head::Binary(Binary::Arithmetic(Arith::Rem)),
        Keyword::Equal => Head::Binary(Binary::Equal),
        Keyword::NotEqual => Head::Binary(Binary::NotEqual),
        Keyword::Less => Head::Binary(Binary::Less),
        Keyword::AtMost => Head::Binary(Binary::AtMost),
        Keyword::Push => Head::Binary(Binary::Push),
        Keyword::At => Head::Binary(Binary::At),
        Keyword::And => Head::And,
        Keyword::Or => Head::Or,
        Keyword::Not => Head::Unary(Unary::Not),
        Keyword::Length => Head::Unary(Unary::Length),
        Keyword::Ready => Head::Unary(Unary::Ready),
        Keyword::Successful => Head::Unary(Unary::Successful),
        Keyword::Value => Head::Unary(Unary::Value),
        Keyword::ExceptionOf => Head::Unary(Unary::Exception),
        Keyword::List => Head::List,
        Keyword::IsSet => Head::Query(Query::IsSet),
        Keyword::Counter => Head::Query(Query::Counter),
        Keyword::QueueSize => Head::Query(Query::QueueSize),
        Keyword::Unfinished => Head::Query(Query::Unfinished),
        Keyword::Members => Head::Query(Query::Members),
        _ => Head::Other,
    }
}
