//! The command that the words name.
ghost use Rattle.std.specs.Prelude.{◌≡◌, IfOk, map, string_bytes};
ghost use Rattle.std.specs.List.{list_any};
ghost use Rattle.clap.specs.Words.{first_of, found_of, rows_of, subcommand_rows_of};
ghost use Rattle.command_words.specs.Words.{server_answers_by, check_by, pass_by, pass_in, passed_by, check_named, command_by, command_of, gateway_by, gateway_named, jobs_by, jobs_in, laws_check, order_by, order_named, run_by, run_check, serve_by, storm_by, verify_by, workers_by, workers_in, world_by, wsgi_by};
ghost use Rattle.command_words.specs.Clap.{by_clap, command_in, is_stray};

use crate::clap_command::program;
use crate::command::{
    GatewayKind, NamedCommand, PassOptions, ResultOrder, RunOptions, RunWorld, ServeAnswers,
    ServeOptions, TextCommand, TraceCheck,
};
use crate::numbers::{given, number_by};
use crate::table::{
    CHECK, CONNS, GATEWAY, IDLE, JOBS, MOVES, NATIVE, ORDER, PASS, PATIENCE, POOL, PORT, SIZE,
    TICK, TURNS,
};
use clap::ArgMatches;
use clap::error::ErrorKind;
use std::alloc::{AllocError, Global};

/// The command that the words after the program's name name, if they name one.
///
/// The command is the first word. Each option is one word `--name` followed by one word, or the one word
/// `--name=value`; options stand in any order, each at most once. A value is a number in decimal digits without a
/// leading zero, in the option's range; that of `--gateway` is `http` or `scgi`, that of `--order` is `free` or
/// `held`, that of `--check` is `run` or `laws`. All other words are no command, and neither are those of a run with a
/// tick and native workers, or with an order and no native workers, those of a server with two of workers for jobs, SCGI
/// and an application server, or with a patience and no application server, or those of a check of laws with turns or
/// moves.
///
/// # Errors
///
/// `AllocError` where memory ran out.
pub fn command_of(alloc: Global, words: &[String]) -> Result<Option<NamedCommand>, AllocError>
    ensures { IfOk result (λ r. r ≡ command_of (map string_bytes words.now)) }
{
    if has_stray(words) {
        return Ok(None);
    }
    Ok(by_clap(alloc, words)?)
}

/// One of the words begins with `-` and is no long option: `--`, behind which `clap` would take no option, `-`, or a
/// short option.
fn has_stray(words: &[String]) -> bool
    ensures { result ≡ list_any (λ w. is_stray (string_bytes w)) words.now }
{
    words.iter().any(|word| is_stray(word))
}

fn is_stray(word: &String) -> bool
    ensures { result ≡ is_stray (string_bytes word.now) }
{
    is_stray_text(word.as_bytes())
}

fn is_stray_text(word: &[u8]) -> bool
    ensures { result ≡ is_stray word.now }
{
    match word {
        [b'-', b'-', _, ..] => false,
        [b'-', ..] => true,
        _ => false,
    }
}

/// The command that `clap` finds in the words.
fn by_clap(alloc: Global, words: &[String]) -> Result<Option<NamedCommand>, AllocError>
    ensures { IfOk result (λ r. r ≡ by_clap (map string_bytes words.now)) }
{
    let command = program(alloc)?;
    match command.try_get_matches_from(words) {
        Ok(matches) => Ok(command_in(&matches)),
        Err(error) => {
            if error.kind() == ErrorKind::OutOfMemory {
                Err(AllocError)
            } else {
                Ok(None)
            }
        }
    }
}

/// The command of what a parse entered.
fn command_in(matches: &ArgMatches) -> Option<NamedCommand>
    ensures { result ≡ command_in (subcommand_rows_of matches.now) }
{
    match matches.subcommand() {
        Some((name, matches)) => command_by(name, matches),
        None => None,
    }
}

/// The command of this name with these options.
fn command_by(name: &str, matches: &ArgMatches) -> Option<NamedCommand>
    ensures { result ≡ command_by name.now (λ n. first_of n (rows_of (found_of matches.now))) }
{
    match name {
        "run" => run_by(matches),
        "fmt" => Some(NamedCommand::Text(TextCommand::Format)),
        "wsgi" => wsgi_by(matches),
        "serve" => serve_by(matches),
        "storm" => storm_by(matches),
        "verify" => verify_by(matches),
        _ => None,
    }
}

/// The world that a run is asked for: native workers, or that of its tick and then no order.
fn world_by(matches: &ArgMatches) -> Option<RunWorld>
    ensures { result ≡ world_by (λ n. first_of n (rows_of (found_of matches.now))) }
{
    if given(NATIVE.name, matches).is_some() {
        return workers_by(matches);
    }
    if given(ORDER, matches).is_some() {
        return None;
    }
    let tick = number_by(TICK, matches)?;
    Some(RunWorld::Script(tick))
}

/// The native workers that a run is asked for, which no tick goes with.
fn workers_by(matches: &ArgMatches) -> Option<RunWorld>
    ensures { result ≡ workers_by (λ n. first_of n (rows_of (found_of matches.now))) }
{
    if given(TICK.name, matches).is_some() {
        return None;
    }
    let order = order_by(matches)?;
    let workers = number_by(NATIVE, matches)?;
    Some(workers_in(order, workers as u32))
}

/// Native workers, so many, whose results are told in this order.
fn workers_in(order: ResultOrder, workers: u32) -> RunWorld
    ensures { result ≡ workers_in order workers }
{
    match order {
        ResultOrder::Free => RunWorld::Native(workers),
        ResultOrder::Held => RunWorld::Held(workers),
    }
}

/// The order of this name, if there is one.
fn order_named(name: &str) -> Option<ResultOrder>
    ensures { result ≡ order_named name.now }
{
    match name {
        "free" => Some(ResultOrder::Free),
        "held" => Some(ResultOrder::Held),
        _ => None,
    }
}

/// The order that is asked for: the one that is named, that in which results come where none is.
fn order_by(matches: &ArgMatches) -> Option<ResultOrder>
    ensures { result ≡ order_by (λ n. first_of n (rows_of (found_of matches.now))) }
{
    match given(ORDER, matches) {
        Some(name) => order_named(name),
        None => Some(ResultOrder::Free),
    }
}

fn run_by(matches: &ArgMatches) -> Option<NamedCommand>
    ensures { result ≡ run_by (λ n. first_of n (rows_of (found_of matches.now))) }
{
    let turns = number_by(TURNS, matches)?;
    let moves = number_by(MOVES, matches)?;
    let world = world_by(matches)?;
    Some(NamedCommand::Text(TextCommand::Run(RunOptions {
        turns,
        moves,
        world,
    })))
}

/// The gateway of this name, if there is one.
fn gateway_named(name: &str) -> Option<GatewayKind>
    ensures { result ≡ gateway_named name.now }
{
    match name {
        "http" => Some(GatewayKind::Http),
        "scgi" => Some(GatewayKind::Scgi),
        _ => None,
    }
}

/// The gateway that is asked for: the one that is named, HTTP where none is.
fn gateway_by(matches: &ArgMatches) -> Option<GatewayKind>
    ensures { result ≡ gateway_by (λ n. first_of n (rows_of (found_of matches.now))) }
{
    match given(GATEWAY, matches) {
        Some(name) => gateway_named(name),
        None => Some(GatewayKind::Http),
    }
}

fn wsgi_by(matches: &ArgMatches) -> Option<NamedCommand>
    ensures { result ≡ wsgi_by (λ n. first_of n (rows_of (found_of matches.now))) }
{
    let gateway = gateway_by(matches)?;
    Some(NamedCommand::Wsgi(gateway))
}

/// A server whose jobs so many native workers do, which SCGI does not go with.
fn jobs_in(gateway: GatewayKind, workers: u32) -> Option<ServeAnswers>
    ensures { result ≡ jobs_in gateway workers }
{
    match gateway {
        GatewayKind::Http => Some(ServeAnswers::Jobs(workers)),
        GatewayKind::Scgi => None,
    }
}

/// The native workers that a server is asked for.
fn jobs_by(matches: &ArgMatches) -> Option<ServeAnswers>
    ensures { result ≡ jobs_by (λ n. first_of n (rows_of (found_of matches.now))) }
{
    let gateway = gateway_by(matches)?;
    let workers = number_by(JOBS, matches)?;
    jobs_in(gateway, workers as u32)
}

/// An application server behind a server, which SCGI in front of it does not go with.
fn pass_in(gateway: GatewayKind, pass: PassOptions) -> Option<ServeAnswers>
    ensures { result ≡ pass_in gateway pass }
{
    match gateway {
        GatewayKind::Http => Some(ServeAnswers::Passing(pass)),
        GatewayKind::Scgi => None,
    }
}

/// The application server that a server is asked to pass its requests to, which workers for jobs do not go with.
fn pass_by(matches: &ArgMatches) -> Option<ServeAnswers>
    ensures { result ≡ pass_by (λ n. first_of n (rows_of (found_of matches.now))) }
{
    if given(JOBS.name, matches).is_some() {
        return None;
    }
    let gateway = gateway_by(matches)?;
    let port = number_by(PASS, matches)?;
    let patience = number_by(PATIENCE, matches)?;
    pass_in(
        gateway,
        PassOptions {
            port: port as u16,
            patience,
        },
    )
}

/// What a server that passes nothing on answers with: native workers for jobs where they are asked for, or else its
/// application.
fn passed_by(matches: &ArgMatches) -> Option<ServeAnswers>
    ensures { result ≡ passed_by (λ n. first_of n (rows_of (found_of matches.now))) }
{
    if given(PATIENCE.name, matches).is_some() {
        return None;
    }
    if given(JOBS.name, matches).is_some() {
        return jobs_by(matches);
    }
    let gateway = gateway_by(matches)?;
    Some(ServeAnswers::Application(gateway))
}

/// What a server answers with: what an application server replies where one is named, or else what it has itself.
fn server_answers_by(matches: &ArgMatches) -> Option<ServeAnswers>
    ensures { result ≡ server_answers_by (λ n. first_of n (rows_of (found_of matches.now))) }
{
    if given(PASS.name, matches).is_some() {
        return pass_by(matches);
    }
    passed_by(matches)
}

fn serve_by(matches: &ArgMatches) -> Option<NamedCommand>
    ensures { result ≡ serve_by (λ n. first_of n (rows_of (found_of matches.now))) }
{
    let port = number_by(PORT, matches)?;
    let conns = number_by(CONNS, matches)?;
    let pool = number_by(POOL, matches)?;
    let idle = number_by(IDLE, matches)?;
    let answers = server_answers_by(matches)?;
    Some(NamedCommand::Serve(ServeOptions {
        port: port as u16,
        conns: conns as u32,
        pool: pool as u32,
        idle,
        answers,
    }))
}

fn storm_by(matches: &ArgMatches) -> Option<NamedCommand>
    ensures { result ≡ storm_by (λ n. first_of n (rows_of (found_of matches.now))) }
{
    let size = number_by(SIZE, matches)?;
    Some(NamedCommand::Storm(size as u32))
}

/// The check of a run within the turns and moves that are asked for.
fn run_check(matches: &ArgMatches) -> Option<TraceCheck>
    ensures { result ≡ run_check (λ n. first_of n (rows_of (found_of matches.now))) }
{
    let turns = number_by(TURNS, matches)?;
    let moves = number_by(MOVES, matches)?;
    Some(TraceCheck::Run { turns, moves })
}

/// The check of the laws, which takes neither turns nor moves.
fn laws_check(matches: &ArgMatches) -> Option<TraceCheck>
    ensures { result ≡ laws_check (λ n. first_of n (rows_of (found_of matches.now))) }
{
    if given(TURNS.name, matches).is_some() {
        return None;
    }
    if given(MOVES.name, matches).is_some() {
        return None;
    }
    Some(TraceCheck::Laws)
}

/// The check of this name, if there is one.
fn check_named(name: &str, matches: &ArgMatches) -> Option<TraceCheck>
    ensures { result ≡ check_named name.now (λ n. first_of n (rows_of (found_of matches.now))) }
{
    match name {
        "run" => run_check(matches),
        "laws" => laws_check(matches),
        _ => None,
    }
}

/// The check that is asked for: the one that is named, that of a run where none is.
fn check_by(matches: &ArgMatches) -> Option<TraceCheck>
    ensures { result ≡ check_by (λ n. first_of n (rows_of (found_of matches.now))) }
{
    match given(CHECK, matches) {
        Some(name) => check_named(name, matches),
        None => run_check(matches),
    }
}

fn verify_by(matches: &ArgMatches) -> Option<NamedCommand>
    ensures { result ≡ verify_by (λ n. first_of n (rows_of (found_of matches.now))) }
{
    let check = check_by(matches)?;
    Some(NamedCommand::Verify(check))
}
