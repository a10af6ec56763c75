ghost use Rattle.std.specs.Prelude.{◌≡◌, ℕ, List, ◌∷◌};
ghost use Rattle.std.specs.List.{find};
ghost use Rattle.scenario_grammar.specs.Keyword.{spelling, is_spelled, keyword_of};

use scenario_grammar::Keyword;

/// The table of the fixed words. Each stands under its first byte: how it is spelled, what it begins, and the profile that
/// brought it, where that is not 1. So a new word is a row here, and touches no other code of this crate. The table goes to
/// the macro `$write`, which makes a match of `$of` of one column: a match that gives whole rows is dear to prove.
macro_rules! fixed_words {
    ($write:ident $of:ident) => {
        $write! {
            $of;
            b'!' { NotEqual => b"!=", Nothing; }
            b'%' { Percent => b"%", Nothing; }
            b'*' { Times => b"*", Nothing; }
            b'+' { Plus => b"+", Nothing; }
            b'-' { Minus => b"-", Nothing; }
            b'/' { Slash => b"/", Nothing; }
            b'<' {
                Less => b"<", Nothing;
                AtMost => b"<=", Nothing;
                Arrow => b"<-", Nothing;
            }
            b'=' { Equal => b"==", Nothing; }
            b'E' {
                AnException => b"Exception", Nothing;
                Empty => b"Empty", Nothing;
                Error => b"Error", Nothing;
            }
            b'F' { Full => b"Full", Nothing; }
            b'G' { GreenletExit => b"GreenletExit", Nothing; }
            b'I' { InvalidSwitch => b"InvalidSwitch", Nothing; }
            b'L' { LoopExit => b"LoopExit", Nothing; }
            b'O' { OverflowError => b"OverflowError", Nothing; }
            b'R' { RuntimeError => b"RuntimeError", Nothing; }
            b'S' { ShutDown => b"ShutDown", Nothing; }
            b'T' {
                ATimeout => b"Timeout", Nothing;
                TypeError => b"TypeError", Nothing;
            }
            b'V' { ValueError => b"ValueError", Nothing; }
            b'Z' { ZeroDivisionError => b"ZeroDivisionError", Nothing; }
            b'a' {
                And => b"and", Nothing;
                At => b"at", Nothing;
                Acquire => b"acquire", Gives;
                Any => b"any", Nothing;
            }
            b'b' { BoundedSem => b"bsem", Declares; }
            b'c' {
                Counter => b"counter", Nothing;
                Count => b"count", Nothing;
                Clear => b"clear", CommandsObject;
                Collatz => b"collatz", Nothing;
                Channel => b"channel", Declares, 2;
                ChannelPut => b"cput", CommandsObject, 2;
                ChannelGet => b"cget", Gives, 2;
            }
            b'd' { Function => b"def", Defines; }
            b'e' {
                Event => b"event", Declares;
                End => b"end", Ends;
                ExceptionOf => b"exception", Nothing;
                Else => b"else", Parts;
                Except => b"except", Catches;
                Echo => b"echo", Nothing;
            }
            b'f' {
                Fifo => b"fifo", Nothing;
                False => b"false", Nothing;
                Finally => b"finally", Finishes;
                Fail => b"fail", Nothing;
            }
            b'g' {
                Group => b"group", Declares;
                Get => b"get", Gives;
                GroupSpawn => b"gspawn", Gives;
                GroupJoin => b"gjoin", CommandsObject;
                GroupKill => b"gkill", CommandsObject;
            }
            b'i' {
                IsSet => b"isset", Nothing;
                If => b"if", Opens;
                Immediate => b"immediate", Nothing, 2;
            }
            b'j' {
                Join => b"join", Commands;
                JoinAll => b"joinall", Gives;
            }
            b'k' {
                Kill => b"kill", Commands;
                KillAll => b"killall", Commands;
            }
            b'l' {
                Lifo => b"lifo", Nothing;
                List => b"list", Nothing;
                Length => b"len", Nothing;
                Let => b"let", Commands;
                Link => b"link", Gives;
                LinkValue => b"linkvalue", Gives;
                LinkFault => b"linkfault", Gives;
            }
            b'm' {
                Members => b"members", Nothing;
                Mark => b"mark", Nothing;
                Map => b"map", Gives;
            }
            b'n' {
                Nothing => b"none", Nothing;
                Native => b"native", Declares;
                Not => b"not", Nothing;
                Now => b"now", Nothing;
                New => b"new", Gives;
                NativeSpawn => b"nspawn", Gives;
            }
            b'o' { Or => b"or", Nothing; }
            b'p' {
                Priority => b"prio", Nothing;
                Pool => b"pool", Declares;
                Push => b"push", Nothing;
                Print => b"print", Commands;
                Profile => b"profile", Profiles;
            }
            b'q' {
                Queue => b"queue", Declares;
                QueueSize => b"qsize", Nothing;
                QueuePut => b"qput", CommandsObject;
                QueueGet => b"qget", Gives;
                QueuePeek => b"qpeek", Gives;
                QueueDone => b"qdone", CommandsObject;
                QueueJoin => b"qjoin", Gives;
                QueueShut => b"qshut", CommandsObject, 2;
            }
            b'r' {
                Result => b"result", Declares;
                Lock => b"rlock", Declares;
                RawFunction => b"rawdef", Defines;
                Ready => b"ready", Nothing;
                Return => b"return", Commands;
                Raise => b"raise", Commands;
                RawLink => b"rawlink", Gives;
                ResultSet => b"rset", CommandsObject;
                ResultFail => b"rfail", CommandsObject;
                ResultGet => b"rget", Gives;
                ResultWait => b"rwait", Gives;
                Release => b"release", CommandsObject;
                Raw => b"raw", Gives;
            }
            b's' {
                Sem => b"sem", Declares;
                Current => b"self", Nothing;
                Successful => b"successful", Nothing;
                Silent => b"silent", Nothing;
                Spawn => b"spawn", Gives;
                SpawnLater => b"spawnlater", Gives;
                Start => b"start", Commands;
                Sleep => b"sleep", Commands;
                Set => b"set", CommandsObject;
                Sum => b"sum", Nothing;
                Switch => b"switch", Gives;
                SetParent => b"setparent", Commands;
            }
            b't' {
                True => b"true", Nothing;
                Try => b"try", Opens;
                Timeout => b"timeout", Opens;
                Takes => b"takes", Nothing;
                Throw => b"throw", Gives;
            }
            b'u' {
                Unfinished => b"unfinished", Nothing;
                Unlink => b"unlink", Commands;
                Under => b"under", Nothing;
            }
            b'v' { Value => b"value", Nothing; }
            b'w' {
                Within => b"within", Nothing;
                While => b"while", Opens;
                With => b"with", Nothing;
                Wait => b"wait", Gives;
            }
        }
    };
}

pub(crate) use fixed_words;

/// How a word is written.
macro_rules! text_of {
    ($word:ident; $($first:literal { $($name:ident => $text:literal, $role:ident $(, $profile:literal)?;)* })*) => {
        match $word {
            $($(Keyword::$name => $text,)*)*
        }
    };
}

/// The words of a first byte.
macro_rules! words_from {
    ($byte:ident; $($first:literal { $($name:ident => $text:literal, $role:ident $(, $profile:literal)?;)* })*) => {
        match $byte {
            $($first => &[$(Keyword::$name),*],)*
            _ => &[],
        }
    };
}

/// How a fixed word is written.
pub fn keyword_text(keyword: Keyword) -> &'static [u8]
    ensures { result.now ≡ spelling keyword }
{
    fixed_words!(text_of keyword)
}

/// The fixed word that this is.
#[tactic(auto, unfolding(scenario_grammar::specs::Keyword::keyword_of, scenario_grammar::specs::Keyword::keywords))]
pub fn find_keyword(word: &[u8]) -> Option<Keyword>
    ensures { result ≡ keyword_of word.now }
{
    match word {
        [] => None,
        [first, ..] => first_spelled(candidates(*first), word),
    }
}

/// The fixed words with this first byte.
#[tactic(auto, unfolding(scenario_grammar::specs::Keyword::keyword_of, scenario_grammar::specs::Keyword::keywords))]
fn candidates(first: u8) -> &'static [Keyword]
    ensures { (rest : List ℕ) → find (is_spelled (first ∷ rest)) result.now ≡ keyword_of (first ∷ rest) }
{
    fixed_words!(words_from first)
}

fn first_spelled(keywords: &[Keyword], word: &[u8]) -> Option<Keyword>
    ensures { result ≡ find (is_spelled word.now) keywords.now }
{
    for keyword in keywords {
        if keyword_text(*keyword) == word {
            return Some(*keyword);
        }
    }
    None
}
