//! Laws of the definitions, each as the contract of a function without a body of its own.
ghost use Rattle.machine.specs.ReplayLaws.{AnswersLengthen, ScriptsReplay};
ghost use Rattle.machine.specs.SoundnessLaws.{AddsSoundly, DropsSoundly, SettlesSoundly};

/// The run under the rule of a script is the run under the answers that the rule gave.
pub fn scripts_replay()
    ensures { ScriptsReplay }
{}

/// The lines of a run under more answers begin with those of the run under the first of them.
pub fn answers_lengthen()
    ensures { AnswersLengthen }
{}

/// A settling, items that go, and an item that comes and says what no other says keep a state sound.
pub fn items_stay_sound()
    ensures settled { SettlesSoundly }
    ensures dropped { DropsSoundly }
    ensures added { AddsSoundly }
{}
