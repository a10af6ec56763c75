//! Words, and what they ask for.
use crate::calls::words_of;
use command_words::{
    GatewayKind, NamedCommand, PassOptions, RunOptions, RunWorld, ServeAnswers, ServeOptions,
    TextCommand, command_of,
};
use std::alloc::{AllocError, Global};

/// Words, and the command that they name.
const NAMED: &[(&str, NamedCommand)] = &[
    (
        "run",
        NamedCommand::Text(TextCommand::Run(RunOptions {
            turns: 1000000,
            moves: 10000000,
            world: RunWorld::Script(0),
        })),
    ),
    (
        "run --moves=10 --turns 3",
        NamedCommand::Text(TextCommand::Run(RunOptions {
            turns: 3,
            moves: 10,
            world: RunWorld::Script(0),
        })),
    ),
    (
        "run --turns 10000000 --moves 100000000",
        NamedCommand::Text(TextCommand::Run(RunOptions {
            turns: 10000000,
            moves: 100000000,
            world: RunWorld::Script(0),
        })),
    ),
    (
        "run --tick=1000",
        NamedCommand::Text(TextCommand::Run(RunOptions {
            turns: 1000000,
            moves: 10000000,
            world: RunWorld::Script(1000),
        })),
    ),
    (
        "run --native 16",
        NamedCommand::Text(TextCommand::Run(RunOptions {
            turns: 1000000,
            moves: 10000000,
            world: RunWorld::Native(16),
        })),
    ),
    (
        "run --order free --native=16",
        NamedCommand::Text(TextCommand::Run(RunOptions {
            turns: 1000000,
            moves: 10000000,
            world: RunWorld::Native(16),
        })),
    ),
    (
        "run --native 4 --order=held",
        NamedCommand::Text(TextCommand::Run(RunOptions {
            turns: 1000000,
            moves: 10000000,
            world: RunWorld::Held(4),
        })),
    ),
    ("fmt", NamedCommand::Text(TextCommand::Format)),
    ("wsgi", NamedCommand::Wsgi(GatewayKind::Http)),
    ("wsgi --gateway=http", NamedCommand::Wsgi(GatewayKind::Http)),
    ("wsgi --gateway scgi", NamedCommand::Wsgi(GatewayKind::Scgi)),
    (
        "serve --conns 2 --port=0",
        NamedCommand::Serve(ServeOptions {
            port: 0,
            conns: 2,
            pool: 100,
            idle: 60000,
            answers: ServeAnswers::Application(GatewayKind::Http),
        }),
    ),
    (
        "serve --gateway=scgi --conns 2 --port=0",
        NamedCommand::Serve(ServeOptions {
            port: 0,
            conns: 2,
            pool: 100,
            idle: 60000,
            answers: ServeAnswers::Application(GatewayKind::Scgi),
        }),
    ),
    (
        "serve --idle 3600000 --pool=1024 --port 65535 --conns=1000000",
        NamedCommand::Serve(ServeOptions {
            port: 65535,
            conns: 1000000,
            pool: 1024,
            idle: 3600000,
            answers: ServeAnswers::Application(GatewayKind::Http),
        }),
    ),
    (
        "serve --port 8080 --conns 2 --idle 1000 --jobs 1",
        NamedCommand::Serve(ServeOptions {
            port: 8080,
            conns: 2,
            pool: 100,
            idle: 1000,
            answers: ServeAnswers::Jobs(1),
        }),
    ),
    (
        "serve --jobs=16 --gateway http --port 0 --conns 1",
        NamedCommand::Serve(ServeOptions {
            port: 0,
            conns: 1,
            pool: 100,
            idle: 60000,
            answers: ServeAnswers::Jobs(16),
        }),
    ),
    (
        "serve --port 8080 --conns 2 --pass 9000",
        NamedCommand::Serve(ServeOptions {
            port: 8080,
            conns: 2,
            pool: 100,
            idle: 60000,
            answers: ServeAnswers::Passing(PassOptions {
                port: 9000,
                patience: 60000,
            }),
        }),
    ),
    (
        "serve --patience 3600000 --pass=1 --gateway=http --port 0 --conns 7",
        NamedCommand::Serve(ServeOptions {
            port: 0,
            conns: 7,
            pool: 100,
            idle: 60000,
            answers: ServeAnswers::Passing(PassOptions {
                port: 1,
                patience: 3600000,
            }),
        }),
    ),
    ("storm --size 19000", NamedCommand::Storm(19000)),
];

/// Words that name no command.
const NONE: &[&str] = &[
    "--help",
    "run --tick 1001",
    "run --native 0",
    "run --native 17",
    "run --native=1 --tick=0",
    "run --order held",
    "run --native 1 --order any",
    "run --native 1 --order held --order=held",
    "run --native 1 --order held --tick 0",
    "run -- --turns 5",
    "run --turns 5 -",
    "run --turns --moves 5",
    "run --turns 5 fmt",
    "serve --port 80",
    "serve --conns 1",
    "serve --port 65536 --conns 1",
    "serve --port 1 --conns 1 --jobs 0",
    "serve --port 1 --conns 1 --jobs 17",
    "serve --port 1 --conns 1 --jobs 2 --gateway scgi",
    "serve --port 1 --conns 1 --pass 0",
    "serve --port 1 --conns 1 --pass 65536",
    "serve --port 1 --conns 1 --pass 2 --jobs 2",
    "serve --port 1 --conns 1 --pass 2 --gateway scgi",
    "serve --port 1 --conns 1 --pass 2 --patience 0",
    "serve --port 1 --conns 1 --patience 5",
    "serve --port 1 --conns 1 --jobs 2 --patience 5",
    "wsgi --gateway",
    "wsgi --gateway fcgi",
    "wsgi --gateway=HTTP",
    "wsgi --gateway=http --gateway=http",
    "run --gateway http",
    "storm --size 0",
    "storm --size 3 --turns 3",
];

/// The command that the words of a line name.
fn named(alloc: Global, line: &str) -> Result<Option<NamedCommand>, AllocError> {
    let words = words_of(alloc, line)?;
    command_of(alloc, words.as_slice())
}

#[test]
fn words_name_commands(rt: HostRuntime) {
    for (line, command) in NAMED {
        assert!(rt; named(rt.alloc(), line) == Ok(Some(*command)), "{line}");
    }
}

#[test]
fn words_that_name_none(rt: HostRuntime) {
    for line in NONE {
        assert!(rt; named(rt.alloc(), line) == Ok(None), "{line}");
    }
}
