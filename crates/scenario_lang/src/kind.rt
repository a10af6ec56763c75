//! What has come of the innermost block, and where lines may stand.
ghost use Rattle.std.specs.Prelude.{◌≡◌};
ghost use Rattle.std.specs.Option.{option_map};
ghost use Rattle.scenario_grammar.specs.Parsed.{kind_of};
ghost use Rattle.scenario_keywords.specs.Roles.{grammar_role};
ghost use Rattle.scenario_lang.specs.Roles.{as_open, as_role, in_a_body_by, misplaced_by, out_of_place_if};

use crate::role::Role;
use scenario_grammar::{Opening, TextReason};
use scenario_keywords::WordRole;

/// What has come of an open block.
#[derive(Clone, Copy)]
pub(crate) enum Kind {
    Body,
    Then,
    Otherwise,
    Loop,
    Trying,
    Catching,
    Ending,
    Timing,
}

/// What this has come of the block that it opened.
pub(crate) fn block_kind(opening: &Opening) -> Kind
    ensures { as_open result ≡ kind_of opening.now }
{
    match opening {
        Opening::Function(_, _, _) => Kind::Body,
        Opening::If(_) => Kind::Then,
        Opening::Else(_, _) => Kind::Otherwise,
        Opening::While(_) => Kind::Loop,
        Opening::Try => Kind::Trying,
        Opening::Except(_, _, _, _, _) => Kind::Catching,
        Opening::Finally(_, _) => Kind::Ending,
        Opening::Timeout(_, _) => Kind::Timing,
    }
}

/// What stands before a line, as far as the line's place depends on it.
#[derive(Clone, Copy)]
pub(crate) struct Standing {
    /// Whether a line that carries something does.
    pub(crate) any_line: bool,
    /// Whether a function has begun.
    pub(crate) has_begun: bool,
    /// Whether as many blocks are open as may be.
    pub(crate) is_full: bool,
    /// What has come of the innermost open block.
    pub(crate) innermost: Option<Kind>,
}

/// Why a line of this role may not stand there, if it may not.
pub(crate) fn why_misplaced(before: Standing, role: Role) -> Option<TextReason>
    ensures { result ≡ misplaced_by before.any_line before.has_begun before.is_full (option_map as_open before.innermost) (as_role role) }
{
    match role {
        Role::Begins(word) => why_word_misplaced(before, word),
        Role::Gives(reason) => in_a_body(reason, before.innermost),
    }
}

/// Why a line that such a word begins may not stand there, if it may not.
fn why_word_misplaced(before: Standing, word: WordRole) -> Option<TextReason>
    ensures { result ≡ misplaced_by before.any_line before.has_begun before.is_full (option_map as_open before.innermost) (grammar_role word) }
{
    match word {
        WordRole::Profiles => out_of_place_if(before.any_line),
        WordRole::Declares => out_of_place_if(before.has_begun),
        WordRole::Defines => match before.innermost {
            None => None,
            Some(_) => Some(TextReason::LineOutOfPlace),
        },
        WordRole::Commands | WordRole::CommandsObject | WordRole::Gives => {
            in_a_body(TextReason::LineOutOfPlace, before.innermost)
        }
        WordRole::Opens => {
            if before.is_full {
                Some(TextReason::NestedTooDeep)
            } else {
                in_a_body(TextReason::LineOutOfPlace, before.innermost)
            }
        }
        WordRole::Parts => match before.innermost {
            Some(Kind::Then) => None,
            _ => Some(TextReason::BlockWordOutOfPlace),
        },
        WordRole::Catches | WordRole::Finishes => match before.innermost {
            Some(Kind::Trying | Kind::Catching) => None,
            _ => Some(TextReason::BlockWordOutOfPlace),
        },
        WordRole::Ends => match before.innermost {
            None | Some(Kind::Trying) => Some(TextReason::BlockWordOutOfPlace),
            Some(_) => None,
        },
        WordRole::Nothing => None,
    }
}

fn out_of_place_if(is_late: bool) -> Option<TextReason>
    ensures { result ≡ out_of_place_if is_late }
{
    if is_late {
        Some(TextReason::LineOutOfPlace)
    } else {
        None
    }
}

/// Inside a function a statement may stand; else it is refused for this reason.
fn in_a_body(reason: TextReason, innermost: Option<Kind>) -> Option<TextReason>
    ensures { result ≡ in_a_body_by reason (option_map as_open innermost) }
{
    match innermost {
        None => Some(reason),
        Some(_) => None,
    }
}
