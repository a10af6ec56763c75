//! Commands with their options.

/// The world of a run: what answers its questions.
#[derive(Clone, Copy, Debug, PartialEq, Eq)]
pub enum RunWorld {
    /// A script, whose moment grows by so many milliseconds at each look that finds nothing.
    Script(u64),
    /// So many native workers, whose results are told as they come.
    Native(u32),
    /// So many native workers, whose results are told as a script without a tick tells them.
    Held(u32),
}

/// In which order the results of native workers are told.
#[derive(Clone, Copy, Debug, PartialEq, Eq)]
pub enum ResultOrder {
    /// As they come.
    Free,
    /// As a script tells them.
    Held,
}

/// The options of a run.
#[derive(Clone, Copy, Debug, PartialEq, Eq)]
pub struct RunOptions {
    /// The most turns that it makes.
    pub turns: u64,
    /// The most moves that it makes.
    pub moves: u64,
    /// What answers its questions.
    pub world: RunWorld,
}

/// What is done with the scenario that the input spells.
#[derive(Clone, Copy, Debug, PartialEq, Eq)]
pub enum TextCommand {
    /// Run it.
    Run(RunOptions),
    /// Write its printed form.
    Format,
}

/// What a server speaks with its peers.
#[derive(Clone, Copy, Debug, PartialEq, Eq)]
pub enum GatewayKind {
    /// HTTP/1 (RFC 9112).
    Http,
    /// SCGI (N. Schemenauer, 2008), which a web server speaks with a server behind it.
    Scgi,
}

/// What a server answers its peers with.
#[derive(Clone, Copy, Debug, PartialEq, Eq)]
pub enum ServeAnswers {
    /// The application, through this gateway.
    Application(GatewayKind),
    /// Over HTTP, the application that has jobs done by so many native workers.
    Jobs(u32),
    /// Over HTTP, what an application server replies.
    Passing(PassOptions),
}

/// How requests are passed to an application server.
#[derive(Clone, Copy, Debug, PartialEq, Eq)]
pub struct PassOptions {
    /// The port of 127.0.0.1 at which it is reached over SCGI.
    pub port: u16,
    /// How many milliseconds a reply is waited for.
    pub patience: u64,
}

/// The options of a server.
#[derive(Clone, Copy, Debug, PartialEq, Eq)]
pub struct ServeOptions {
    /// The port that it listens on; at 0 the system chooses one.
    pub port: u16,
    /// How many connections it serves before it ends.
    pub conns: u32,
    /// The most connections that it serves at a time.
    pub pool: u32,
    /// How many milliseconds a connection may be quiet before it is closed.
    pub idle: u64,
    /// What it answers its peers with.
    pub answers: ServeAnswers,
}

/// What is checked of a trace.
#[derive(Clone, Copy, Debug, PartialEq, Eq)]
pub enum TraceCheck {
    /// Whether it is the run of a scenario, which makes at most so many turns and moves.
    Run { turns: u64, moves: u64 },
    /// Whether its lines meet the laws.
    Laws,
}

/// What the program is asked to do.
#[derive(Clone, Copy, Debug, PartialEq, Eq)]
pub enum NamedCommand {
    /// Do this with the scenario that the input spells.
    Text(TextCommand),
    /// Answer the connection whose bytes the input gives, and which speaks this.
    Wsgi(GatewayKind),
    /// Serve connections.
    Serve(ServeOptions),
    /// Run the storm of so many greenlets.
    Storm(u32),
    /// Check this of the trace that the input has.
    Verify(TraceCheck),
}
