//! The table of the commands and their options.
use gv_values::{
    MOST_CONNECTIONS, MOST_IDLE, MOST_MOVES, MOST_OPEN_CONNECTIONS, MOST_TURNS, MOST_WORKERS,
};

/// An option whose value is a number.
#[derive(Clone, Copy)]
pub struct NumberOption {
    /// Its name, which stands behind `--`.
    pub name: &'static str,
    /// The least number that it takes.
    pub least: u64,
    /// The most that it takes.
    pub most: u64,
    /// The number that stands where it is left out; none where it has to be given.
    pub usual: Option<u64>,
}

/// An option of a command.
#[derive(Clone, Copy)]
pub enum CommandOption {
    /// Its value is a number.
    Number(NumberOption),
    /// The option of this name, whose value is the name of a gateway.
    Gateway(&'static str),
    /// The option of this name, whose value is the name of an order.
    Order(&'static str),
    /// The option of this name, whose value is the name of a check.
    Check(&'static str),
}

/// A command: its name, and its options.
#[derive(Clone, Copy)]
pub struct CommandRow {
    /// Its name.
    pub name: &'static str,
    /// Its options.
    pub options: &'static [CommandOption],
}

/// The turns of a run where nothing is said.
pub const USUAL_TURNS: u64 = 1000000;

/// The moves of a run where nothing is said.
pub const USUAL_MOVES: u64 = 10000000;

/// The longest tick of a script, in milliseconds.
pub const MOST_TICK: u64 = 1000;

/// The greatest port.
pub const MOST_PORT: u64 = 65535;

/// The connections of a server at a time where nothing is said.
pub const USUAL_OPEN_CONNECTIONS: u64 = 100;

/// The time after which a server closes a quiet connection where nothing is said, in milliseconds.
pub const USUAL_IDLE: u64 = 60000;

/// The time for which a reply is waited for where nothing is said, in milliseconds.
pub const USUAL_PATIENCE: u64 = 60000;

/// The most greenlets of a storm.
pub const MOST_STORM: u64 = 19000;

/// The most turns of a run.
pub const TURNS: NumberOption = NumberOption {
    name: "turns",
    least: 1,
    most: MOST_TURNS,
    usual: Some(USUAL_TURNS),
};

/// The most moves of a run.
pub const MOVES: NumberOption = NumberOption {
    name: "moves",
    least: 1,
    most: MOST_MOVES,
    usual: Some(USUAL_MOVES),
};

/// The tick of a run's script, in milliseconds.
pub const TICK: NumberOption = NumberOption {
    name: "tick",
    least: 0,
    most: MOST_TICK,
    usual: Some(0),
};

/// The native workers of a run.
pub const NATIVE: NumberOption = NumberOption {
    name: "native",
    least: 1,
    most: MOST_WORKERS as u64,
    usual: None,
};

/// The option that names the order in which the results of native workers are told.
pub const ORDER: &str = "order";

/// The port of a server.
pub const PORT: NumberOption = NumberOption {
    name: "port",
    least: 0,
    most: MOST_PORT,
    usual: None,
};

/// The connections of a server.
pub const CONNS: NumberOption = NumberOption {
    name: "conns",
    least: 1,
    most: MOST_CONNECTIONS,
    usual: None,
};

/// The most connections of a server at a time.
pub const POOL: NumberOption = NumberOption {
    name: "pool",
    least: 1,
    most: MOST_OPEN_CONNECTIONS,
    usual: Some(USUAL_OPEN_CONNECTIONS),
};

/// The time after which a server closes a quiet connection, in milliseconds.
pub const IDLE: NumberOption = NumberOption {
    name: "idle",
    least: 1,
    most: MOST_IDLE,
    usual: Some(USUAL_IDLE),
};

/// The native workers that do the jobs of a server.
pub const JOBS: NumberOption = NumberOption {
    name: "jobs",
    least: 1,
    most: MOST_WORKERS as u64,
    usual: None,
};

/// The port of the application server to which a server passes its requests.
pub const PASS: NumberOption = NumberOption {
    name: "pass",
    least: 1,
    most: MOST_PORT,
    usual: None,
};

/// The time for which a server waits for a reply to what it passed, in milliseconds.
pub const PATIENCE: NumberOption = NumberOption {
    name: "patience",
    least: 1,
    most: MOST_IDLE,
    usual: Some(USUAL_PATIENCE),
};

/// The option that names what a server speaks with its peers.
pub const GATEWAY: &str = "gateway";

/// The size of a storm.
pub const SIZE: NumberOption = NumberOption {
    name: "size",
    least: 1,
    most: MOST_STORM,
    usual: None,
};

/// The option that names what is checked of a trace.
pub const CHECK: &str = "check";

const OF_RUN: [CommandOption; 5] = [
    CommandOption::Number(TURNS),
    CommandOption::Number(MOVES),
    CommandOption::Number(TICK),
    CommandOption::Number(NATIVE),
    CommandOption::Order(ORDER),
];

const OF_WSGI: [CommandOption; 1] = [CommandOption::Gateway(GATEWAY)];

const OF_SERVE: [CommandOption; 8] = [
    CommandOption::Number(PORT),
    CommandOption::Number(CONNS),
    CommandOption::Number(POOL),
    CommandOption::Number(IDLE),
    CommandOption::Gateway(GATEWAY),
    CommandOption::Number(JOBS),
    CommandOption::Number(PASS),
    CommandOption::Number(PATIENCE),
];

const OF_STORM: [CommandOption; 1] = [CommandOption::Number(SIZE)];

const OF_VERIFY: [CommandOption; 3] = [
    CommandOption::Check(CHECK),
    CommandOption::Number(TURNS),
    CommandOption::Number(MOVES),
];

/// The commands, each with its options.
pub const COMMANDS: [CommandRow; 6] = [
    CommandRow {
        name: "run",
        options: &OF_RUN,
    },
    CommandRow {
        name: "fmt",
        options: &[],
    },
    CommandRow {
        name: "wsgi",
        options: &OF_WSGI,
    },
    CommandRow {
        name: "serve",
        options: &OF_SERVE,
    },
    CommandRow {
        name: "storm",
        options: &OF_STORM,
    },
    CommandRow {
        name: "verify",
        options: &OF_VERIFY,
    },
];
