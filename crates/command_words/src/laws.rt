//! Laws of the definitions: each function only says that its clauses hold.
ghost use Rattle.std.specs.Prelude.{◌≡◌, List, ℕ, Some};
ghost use Rattle.command_words.specs.Words.{command_of};
ghost use Rattle.command_words.specs.Ranges.{IsInRange};
ghost use Rattle.command_words.specs.declared.command.NamedCommand.{NamedCommand};

/// The numbers of a command that words name are those that its options take.
pub fn commands_are_in_range()
    ensures { (words : List (List ℕ)) (command : NamedCommand) → command_of words ≡ Some command → IsInRange command }
{}
