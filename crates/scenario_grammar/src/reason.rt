//! Why a text or a scenario is refused, by names; the numbers are those that a refusal shows.
ghost use Rattle.std.specs.Prelude.{◌≡◌, IsTrue};
ghost use Rattle.scenario_grammar.specs.Reason.{reason_text, rule_number, text_number};
ghost use Rattle.scenario_grammar.specs.ReasonNumbers.{is_reason};

/// Why bytes are no text of a scenario.
#[derive(Clone, Copy, PartialEq, Eq)]
pub enum TextReason {
    /// The text is longer than `MOST_TEXT` bytes, and not of profile 3.
    TooLarge,
    /// A byte is neither LF nor printable ASCII.
    NotPrintable,
    /// The last line is not ended by LF.
    NotEnded,
    /// Two blanks stand between words, or one at the end of a line.
    BlankOutOfPlace,
    /// A fixed word is wanted, and none fits.
    UnknownWord,
    /// A word is wanted, and none is left.
    TooShort,
    /// Words are left.
    TooLong,
    /// A number is not in its one spelling.
    MisspelledNumber,
    /// A number is out of its range.
    OutOfRange,
    /// A name is wanted.
    NotAName,
    /// `end`, `else`, `except` or `finally` where none may stand, or a `try` that ends with neither
    /// an except nor a finally.
    BlockWordOutOfPlace,
    /// A block is open at the end of the text.
    NotClosed,
    /// A declaration stands after a function, a statement outside one, a function inside one, or a
    /// line of the profile behind another line.
    LineOutOfPlace,
    /// No line is a `def` of `main`.
    NoMain,
    /// Blocks nest past `MOST_LEVELS` levels, or an expression past `MOST_NESTED`.
    NestedTooDeep,
    /// The text is of profile 3, and longer than `MOST_LONG_TEXT` bytes.
    LongTooLarge,
}

impl TextReason {
    /// The number that a refusal shows.
    pub fn number(self) -> u8
        ensures { result ≡ text_number self }
    {
        match self {
            TextReason::TooLarge => 1,
            TextReason::NotPrintable => 2,
            TextReason::NotEnded => 3,
            TextReason::BlankOutOfPlace => 4,
            TextReason::UnknownWord => 5,
            TextReason::TooShort => 6,
            TextReason::TooLong => 7,
            TextReason::MisspelledNumber => 8,
            TextReason::OutOfRange => 9,
            TextReason::NotAName => 10,
            TextReason::BlockWordOutOfPlace => 11,
            TextReason::NotClosed => 12,
            TextReason::LineOutOfPlace => 13,
            TextReason::NoMain => 14,
            TextReason::NestedTooDeep => 21,
            TextReason::LongTooLarge => 26,
        }
    }
}

/// Why a scenario that has a text breaks the rules on its names, counts and limits.
#[derive(Clone, Copy, PartialEq, Eq)]
pub enum RuleReason {
    /// A name is used that nothing declares.
    Undeclared,
    /// The later of two declarations of one name.
    DeclaredTwice,
    /// A name stands for what it is not declared as.
    WrongKind,
    /// The count of parameters or of arguments is wrong.
    WrongCount,
    /// A statement that asks the hub stands in a raw body.
    HubInRawBody,
    /// Timeout blocks nest past `scenario_rules::MOST_TIMEOUTS`.
    TimeoutsTooDeep,
    /// There are more objects, functions, parameters or local names than there may be.
    TooMany,
}

impl RuleReason {
    /// The number that a refusal shows.
    pub fn number(self) -> u8
        ensures { result ≡ rule_number self }
    {
        match self {
            RuleReason::Undeclared => 15,
            RuleReason::DeclaredTwice => 16,
            RuleReason::WrongKind => 17,
            RuleReason::WrongCount => 18,
            RuleReason::HubInRawBody => 19,
            RuleReason::TimeoutsTooDeep => 20,
            RuleReason::TooMany => 22,
        }
    }
}

/// The text that a refusal shows for the reason of this number: one from 1 to 22, or 26.
pub fn reason_text(reason: u8) -> &'static str
    requires { IsTrue (is_reason reason) }
    ensures { result.now ≡ reason_text reason }
{
    match reason {
        1 => "text longer than 1048576 bytes",
        2 => "byte that is not printable ASCII",
        3 => "last line not ended",
        4 => "blank out of place",
        5 => "unknown word",
        6 => "line too short",
        7 => "line too long",
        8 => "number not in its one spelling",
        9 => "number out of range",
        10 => "name not allowed",
        11 => "block word out of place",
        12 => "block not closed",
        13 => "line out of place",
        14 => "no main",
        15 => "undeclared name",
        16 => "name declared twice",
        17 => "wrong kind of name",
        18 => "wrong count of parameters or arguments",
        19 => "hub statement in a raw body",
        20 => "timeout blocks nested past 8",
        21 => "nesting past 32",
        22 => "too many declarations",
        26 => "text longer than 16777216 bytes",
        // The requires say that it is one of these.
        _ => unreachable!(),
    }
}
