//! Laws of the definitions: each function only says that its clause holds.
ghost use Rattle.http_messages.specs.Laws.{ChunkLinesAreOfTheGrammar, HeadsAreOfTheGrammar};

/// A request's head is one of `httparse`'s grammar, and each of those is one.
pub fn heads_are_of_the_grammar()
    ensures { HeadsAreOfTheGrammar }
{}

/// A chunk's line is one of `httparse`'s grammar, and each of those is one.
pub fn chunk_lines_are_of_the_grammar()
    ensures { ChunkLinesAreOfTheGrammar }
{}
