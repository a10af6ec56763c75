//! The kinds of lines.
ghost use Rattle.std.specs.Prelude.{◌≡◌};
ghost use Rattle.scenario_lines.specs.Kinds.{kind_by, kind_of};

use scenario_grammar::Keyword;
use scenario_keywords::{WordRole, word_role};

/// What a line is read as, by the fixed word that begins it.
#[derive(Clone, Copy)]
pub(crate) enum LineKind {
    Declaration,
    /// It names the profile, or opens, parts or ends a block.
    Block,
    /// A statement that gives no value and names no object first.
    Command,
    /// A statement that gives no value and names its object first.
    ObjectCommand,
    /// A statement that gives a value, or a word that begins no line.
    Other,
}

/// The kind of the line that a fixed word begins.
pub(crate) fn line_kind(word: Keyword) -> LineKind
    ensures { result ≡ kind_by word }
{
    kind_of(word_role(word))
}

fn kind_of(role: WordRole) -> LineKind
    ensures { result ≡ kind_of role }
{
    match role {
        WordRole::Declares => LineKind::Declaration,
        WordRole::Profiles
        | WordRole::Defines
        | WordRole::Opens
        | WordRole::Parts
        | WordRole::Catches
        | WordRole::Finishes
        | WordRole::Ends => LineKind::Block,
        WordRole::Commands => LineKind::Command,
        WordRole::CommandsObject => LineKind::ObjectCommand,
        WordRole::Gives | WordRole::Nothing => LineKind::Other,
    }
}
