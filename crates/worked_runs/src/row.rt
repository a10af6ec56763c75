//! A worked row.
use crate::faults::{holds_at_each_end, holds_with_faults};
use gv_io::{MemorySink, MemorySource};
use gv_top::offline;
use gv_values::Answer;
use std::alloc::{AllocError, Global};
use trace_reader::{LineFault, read_line};
use trace_text::Line;
use world::ListWorld;
use wsgi_core::ShippedApp;

/// How many bytes a run may write.
pub(crate) const ROOM: usize = 1048576;

/// How many bytes the input gives at a time.
const PIECE: usize = 4096;

/// The lines that name a profile.
const PROFILE_2: &[u8] = b"profile 2\n";

const PROFILE_3: &[u8] = b"profile 3\n";

/// How many it gives where its reads fail in turn.
pub(crate) const SMALL_PIECE: usize = 7;

/// How the streams of a call behave: how many bytes the input has, and whether it gives few at a time, which read fails,
/// and how many bytes out and err take.
#[derive(Clone, Copy)]
pub(crate) struct Streams {
    pub length: usize,
    pub has_small_pieces: bool,
    pub failing: Option<u64>,
    pub room: usize,
    pub err_room: usize,
}

/// What a call is to say.
#[derive(Clone, Copy)]
pub(crate) struct Wanted<'a> {
    pub status: Option<u8>,
    pub out: &'a [u8],
    pub said: &'a [u8],
}

/// What a call said.
#[derive(Drop)]
pub(crate) struct Said {
    pub status: Option<u8>,
    pub out: MemorySink,
    pub err: MemorySink,
}

impl Said {
    /// Whether that is what was wanted.
    pub(crate) fn is(&self, wanted: &Wanted<'_>) -> bool {
        wanted.status.is_some()
            && self.status == wanted.status
            && self.out.bytes() == wanted.out
            && self.err.bytes() == wanted.said
    }
}

/// A row: its words and text, and what the program is to say.
#[derive(Drop)]
pub(crate) struct Row {
    name: String,
    words: Vec<String>,
    text: Vec<u8>,
    status: Option<u8>,
    trace: Vec<u8>,
    said: Vec<u8>,
    // The answers of the trace, which a world with native workers gives.
    answers: Vec<Answer>,
    // Whether each line of the trace reads back as one.
    is_read: bool,
    // How many lines the whole trace has, where the row has its end alone.
    lines: Option<usize>,
    // Whether a line that ends with a caret has a CR there.
    has_carets: bool,
    // Whether the row is run with each fault too, and with each beginning of its text.
    has_faults: bool,
    has_ends: bool,
}

/// Adds a line and its LF; where carets are CRs, one at its end is.
fn add_line(to: &mut Vec<u8>, line: &str, has_carets: bool) -> Result<(), AllocError> {
    match line.strip_suffix("^") {
        Some(before) if has_carets => {
            to.extend_from_slice(before.as_bytes())?;
            to.push(b'\r')?;
        }
        _ => to.extend_from_slice(line.as_bytes())?,
    }
    to.push(b'\n')?;
    Ok(())
}

/// How many lines the bytes have.
fn line_count(bytes: &[u8]) -> usize {
    let mut count: usize = 0;
    for byte in bytes {
        if *byte == b'\n' {
            count = count.saturating_add(1);
        }
    }
    count
}

/// The text with `profile 3` as its first line, and without the line `profile 2`.
fn in_profile_3(alloc: Global, text: &[u8]) -> Result<Vec<u8>, AllocError> {
    let mut made = Vec::from_slice(alloc, PROFILE_3)?;
    for at in 0..text.len() {
        if let Some(behind) = text[at..].strip_prefix(PROFILE_2) {
            made.extend_from_slice(&text[..at])?;
            made.extend_from_slice(behind)?;
            return Ok(made);
        }
    }
    made.extend_from_slice(text)?;
    Ok(made)
}

impl Row {
    /// A row of which the name alone is known.
    pub(crate) fn new(alloc: Global, name: &str) -> Result<Row, AllocError> {
        Ok(Row {
            name: String::from_str(alloc, name)?,
            words: Vec::new(alloc),
            text: Vec::new(alloc),
            status: None,
            trace: Vec::new(alloc),
            said: Vec::new(alloc),
            answers: Vec::new(alloc),
            is_read: true,
            lines: None,
            has_carets: false,
            has_faults: false,
            has_ends: false,
        })
    }

    /// Takes a line on how the row is run: `faults`, with each fault too; `ends`, with each beginning of its text too;
    /// `carets`, where a caret at the end of a line is a CR; `lines` and a number, where the row has the end of a trace of
    /// so many lines alone.
    pub(crate) fn set_way(&mut self, way: &str) {
        self.has_faults = self.has_faults || way == "faults";
        self.has_ends = self.has_ends || way == "ends";
        self.has_carets = self.has_carets || way == "carets";
        if let Some(lines) = way.strip_prefix("lines ") {
            self.lines = lines.parse::<usize>().ok();
        }
    }

    /// Takes the words of this line, which blanks part.
    pub(crate) fn set_words(&mut self, alloc: Global, line: &str) -> Result<(), AllocError> {
        for word in line.split_whitespace() {
            self.words.push(String::from_str(alloc, word)?)?;
        }
        Ok(())
    }

    /// Takes the status that is wanted; none where this is no number.
    pub(crate) fn set_status(&mut self, status: &str) {
        self.status = status.parse::<u8>().ok();
    }

    pub(crate) fn add_text(&mut self, line: &str) -> Result<(), AllocError> {
        add_line(&mut self.text, line, self.has_carets)
    }

    pub(crate) fn add_said(&mut self, line: &str) -> Result<(), AllocError> {
        add_line(&mut self.said, line, false)
    }

    /// Takes a line of the trace, and the answer that it tells. A line that no trace has is noted.
    pub(crate) fn add_trace(&mut self, alloc: Global, line: &str) -> Result<(), AllocError> {
        add_line(&mut self.trace, line, self.has_carets)?;
        match read_line(alloc, line.as_bytes()) {
            Ok(Line::Turn { answer, .. }) => Ok(self.answers.push(answer)?),
            Ok(_) => Ok(()),
            Err(LineFault::NotALine) => {
                self.is_read = false;
                Ok(())
            }
            Err(LineFault::Memory) => Err(AllocError),
        }
    }

    /// The bytes of the input.
    pub(crate) fn text(&self) -> &[u8] {
        self.text.as_slice()
    }

    /// What out is to have.
    pub(crate) fn trace(&self) -> &[u8] {
        self.trace.as_slice()
    }

    /// What the row has, where no stream fails.
    pub(crate) fn wanted(&self) -> Wanted<'_> {
        Wanted {
            status: self.status,
            out: self.trace.as_slice(),
            said: self.said.as_slice(),
        }
    }

    /// Whether this is the command.
    fn is_command(&self, name: &str) -> bool {
        match self.words.first() {
            Some(word) => word.as_str() == name,
            None => false,
        }
    }

    /// Whether what the call says answers a connection.
    pub(crate) fn is_connection(&self) -> bool {
        self.is_command("wsgi")
    }

    /// Streams with which nothing fails.
    pub(crate) fn sound_streams(&self) -> Streams {
        Streams {
            length: self.text.len(),
            has_small_pieces: false,
            failing: None,
            room: ROOM,
            err_room: ROOM,
        }
    }

    /// What the call says over such streams, and over a world that gives the answers of the trace.
    pub(crate) fn call(&self, alloc: Global, streams: &Streams) -> Result<Said, AllocError> {
        let mut failing = Vec::new(alloc);
        if let Some(read) = streams.failing {
            failing.push(read)?;
        }
        let text = &self.text.as_slice()[..streams.length.min(self.text.len())];
        let piece = if streams.has_small_pieces {
            SMALL_PIECE
        } else {
            PIECE
        };
        let mut input = MemorySource::new(Vec::from_slice(alloc, text)?, piece, failing);
        let mut out = MemorySink::new(alloc, streams.room)?;
        let mut err = MemorySink::new(alloc, streams.err_room)?;
        let mut native = ListWorld::new(alloc, Vec::from_slice(alloc, self.answers.as_slice())?);
        let status = offline(
            alloc,
            self.words.as_slice(),
            &mut input,
            &mut out,
            &mut err,
            &mut native,
            &ShippedApp,
        );
        Ok(Said { status, out, err })
    }

    /// Whether the call says what the row has: its whole trace, or its end, where that is all that the row has of it.
    fn holds(&self, alloc: Global) -> Result<bool, AllocError> {
        let said = self.call(alloc, &self.sound_streams())?;
        Ok(match self.lines {
            None => said.is(&self.wanted()),
            Some(lines) => {
                self.status.is_some()
                    && said.status == self.status
                    && line_count(said.out.bytes()) == lines
                    && said.out.bytes().ends_with(self.trace.as_slice())
                    && said.err.bytes() == self.said.as_slice()
            }
        })
    }

    /// The name of the row, where the call says anything else than the row has, in any way in which it is run, or where
    /// its trace has a line that no trace has. A text that runs is run as one of profile 3 too, but for the longest.
    pub(crate) fn differs(self, alloc: Global) -> Result<Option<String>, AllocError> {
        let holds = (self.is_read || !self.is_command("run"))
            && self.holds(alloc)?
            && (!self.has_faults || holds_with_faults(alloc, &self)?)
            && (!self.has_ends || holds_at_each_end(alloc, &self)?);
        if !self.runs_in_profile_3() {
            return Ok(if holds { None } else { Some(self.name) });
        }
        let later = self.in_profile_3(alloc)?;
        let holds = holds && later.holds(alloc)?;
        Ok(if holds { None } else { Some(later.name) })
    }

    /// Whether the row is run as one of profile 3 too.
    fn runs_in_profile_3(&self) -> bool {
        self.is_command("run")
            && self.status != Some(3)
            && self.lines.is_none()
            && !self.text.as_slice().starts_with(PROFILE_3)
    }

    /// The row with its text as one of profile 3.
    fn in_profile_3(self, alloc: Global) -> Result<Row, AllocError> {
        let text = in_profile_3(alloc, self.text.as_slice())?;
        let mut row = self;
        row.text = text;
        Ok(row)
    }
}
