ghost use Rattle.trace_reader.specs.LineLaws.{TextsDiffer, TextsAreRead};

/// The text of a line tells the line. This does nothing; its contract says it of all lines.
pub fn texts_tell_lines()
    ensures differ { TextsDiffer }
    ensures read { TextsAreRead }
{}
