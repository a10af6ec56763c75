//! Laws of the definitions: each function only says that its clauses hold.
ghost use Rattle.std.specs.Prelude.{◌≡◌, ℕ, List, Some, None};
ghost use Rattle.machine.specs.Budgets.{AreBudgets};
ghost use Rattle.machine_reached.specs.Laws.{RunsLeaveRoom, RunsStandIn};
ghost use Rattle.command_words.specs.declared.command.RunOptions.{RunOptions};
ghost use Rattle.command_words.specs.declared.command.TextCommand.{TextCommand};
ghost use Rattle.gv_top.specs.declared.words.OfflineCommand.{OfflineCommand};
ghost use Rattle.gv_values.specs.declared.job.Answer.{Answer as Given};
ghost use Rattle.gv_top.specs.Answers.{Answer, IsTextAnswer};
ghost use Rattle.gv_top.specs.Words.{offline_command_of, serve_of};

use command_words::commands_are_in_range;
use machine_reached::runs_leave_room;

/// No words name both a server and a command that needs no net.
pub fn words_name_one()
    ensures { (words : List (List ℕ)) (command : OfflineCommand) → offline_command_of words ≡ Some command → serve_of words ≡ None }
{}

/// Each text has one answer: a text of a well-formed scenario is run or gives its printed form, and any other bytes are
/// refused at their place.
pub fn texts_are_answered()
    ensures answered { (command : TextCommand) (given : List Given) (bytes : List ℕ) → (a : Answer) × IsTextAnswer command given bytes a }
    ensures one { (command : TextCommand) (given : List Given) (bytes : List ℕ) (a b : Answer) → IsTextAnswer command given bytes a → IsTextAnswer command given bytes b → a ≡ b }
{}

/// The budgets that words name are in their ranges.
pub fn budgets_are_in_range()
    ensures { (words : List (List ℕ)) (options : RunOptions) → offline_command_of words ≡ Some (OfflineCommand.Text (TextCommand.Run options))
        → AreBudgets options.turns options.moves }
{
    commands_are_in_range();
}

/// No run within the budgets that words may name comes to the end of a count, wherever its answers come from: its last
/// state is one in which the hub stands, after no more turns and moves than its budgets, and there each count is far below
/// what its type holds, if no object is declared with more than that.
pub fn counts_stay_small()
    ensures stand { RunsStandIn }
    ensures room { RunsLeaveRoom }
{
    runs_leave_room();
}
