//! The call that the program makes.
ghost use Rattle.std.specs.Prelude.{◌≡◌, ◌≢◌, ◌≤◌, ◌⊎◌, ℕ, false, List, Some, None, map, take, drop, string_bytes, OnOk, OnErr, IfNone, IfSome, IsSome};
ghost use Rattle.gv_values.specs.Counts.{HasRisen};
ghost use Rattle.gv_io.specs.Streams.{appended, AppendsPrefix};
ghost use Rattle.command_words.specs.declared.command.GatewayKind.{GatewayKind as AnyGateway};
ghost use Rattle.command_words.specs.declared.command.RunOptions.{RunOptions as AnyOptions};
ghost use Rattle.command_words.specs.declared.command.NamedCommand.{NamedCommand};
ghost use Rattle.command_words.specs.declared.command.TraceCheck.{TraceCheck as AnyCheck};
ghost use Rattle.command_words.specs.Ranges.{IsCheckInRange, IsInRange};
ghost use Rattle.scenario_grammar.specs.Spells.{Spells};
ghost use Rattle.scenario_rules.specs.Rules.{IsWellFormed};
ghost use Rattle.scenario_tree.specs.declared.tree.Scenario.{Scenario as AnyScenario};
ghost use Rattle.gv_top.specs.Answers.{Answer, IsStormAnswer, answer_to_scenario, formatted, most_read, no_port};
ghost use Rattle.gv_top.specs.Inner.{answer_to_text, BeganText, IsExplained, IsOfConnection, IsOr, RanScenarioSo, RanSo};
ghost use Rattle.gv_top.specs.Gateway.{answers_by};
ghost use Rattle.gv_top.specs.Commands.{AnswersCommand, IsBorneOut, IsLeftAlone};
ghost use Rattle.run_command.specs.Running.{BeganSo};
ghost use Rattle.gv_top.specs.declared.status.Verdict.{Verdict as AnyVerdict};
ghost use Rattle.run_command.specs.Faults.{Counts};
ghost use Rattle.gv_top.specs.Top.{CameTo, Decided, FitsAnswer, HandsOn, HasLawfulLines, IsVerdictTold, seen};
ghost use Rattle.gv_top.specs.Status.{verdict_line, verdict_status};
ghost use Rattle.gv_top.specs.Checks.{AnswersCheck};
ghost use Rattle.gv_top.specs.Verifying.{IsAnswerOf, IsCheckAnswer};
ghost use Rattle.trace_check.specs.Inputs.{most_checked_read};
ghost use Rattle.wsgi_connection.specs.Connection.{HandedAhead};
ghost use Rattle.gv_top.specs.Words.{offline_command_of, is_native, is_native_text, reads_input, serve_of};

use crate::gateway::answer_through;
use crate::status::{
    Conclusion, Failure, Verdict, verdict_of_connection, verdict_of_run, verdict_of_text,
};
use crate::storming::answer_storm;
use crate::verifying::answer_check;
use crate::words::{OfflineCommand, server_options, without_a_net};
use command_words::{TextCommand, command_of, commands_are_in_range};
use gv_io::{Failed, ReadRefusal, Sink, Source, read_limited};
use machine_blocks::blocks_are_told;
use machine_trace_laws::blocks_are_quiet;
use run_command::run_scenario;
use scenario_check::Checked;
use scenario_lang::{MOST_LONG_TEXT, Scenario, print};
use scenario_reading::read_scenario;
use std::alloc::Global;
use world::World;
use wsgi_core::Application;

/// All of the call but its line on err. None: the words name `serve`, and nothing was done.
fn decide<S: Source, K: Sink, W: World, A: Application>(
    alloc: Global,
    words: &[String],
    input: &mut S,
    out: &mut K,
    native: &mut W,
    app: &A,
) -> Option<Verdict>
    requires rests { (W.meaning native.old).runs ≡ false }
    ensures came_to { IfSome result (λ verdict. CameTo verdict (A.answer_of app.now) (offline_command_of (map string_bytes words.now)) (W.meaning native.new) (W.stands_for native.new)
        (seen S.remaining S.faults input.old input.new) (seen K.written K.faults out.old out.new)) }
    ensures no_command { IfSome result (λ verdict. offline_command_of (map string_bytes words.now) ≡ None → (verdict_status verdict ≡ 2) ⊎ (verdict_status verdict ≡ 7)) }
    ensures lawful { IfSome result (λ verdict. (options : AnyOptions) → offline_command_of (map string_bytes words.now) ≡ Some (OfflineCommand.Text (TextCommand.Run options)) →
        HasLawfulLines (verdict_status verdict) (K.written out.old) (K.written out.new)) }
    ensures hands { IfSome result (λ verdict. HandsOn (verdict_status verdict) (K.written out.old) (K.handed out.old) (K.written out.new) (K.handed out.new)) }
    ensures began { IfSome result (λ verdict. (text : TextCommand) → offline_command_of (map string_bytes words.now) ≡ Some (OfflineCommand.Text text) → (left : List ℕ) → S.remaining input.old ≡ Some left →
        BeganText W.waits text (take most_read left) (W.meaning native.old) (W.meaning native.new) (K.written out.old) (K.written out.new) (K.handed out.new) (K.faults out.old) (K.faults out.new)) }
    ensures untouched { is_native (offline_command_of (map string_bytes words.now)) ≡ false → native.new ≡ native.old }
    ensures left_alone { IfSome result (λ verdict. IsLeftAlone (verdict_status verdict) (S.remaining input.old) native.old native.new) }
    ensures rests { (W.meaning native.new).runs ≡ false }
    ensures connection { IfSome result (λ verdict. (gateway : AnyGateway) → offline_command_of (map string_bytes words.now) ≡ Some (OfflineCommand.Wsgi gateway) →
        IsOfConnection verdict gateway (A.answer_of app.now) (S.remaining input.old) (S.remaining input.new) (K.written out.old) (K.written out.new)) }
    ensures handed_ahead { IfSome result (λ verdict. (gateway : AnyGateway) → offline_command_of (map string_bytes words.now) ≡ Some (OfflineCommand.Wsgi gateway) → K.handed out.old ≡ K.written out.old →
        HandedAhead (answers_by gateway) (A.answer_of app.now) no_port (S.remaining input.old) (S.remaining input.new) (K.written out.old) (K.handed out.new)) }
    ensures untouched_input { reads_input (offline_command_of (map string_bytes words.now)) ≡ false → input.new ≡ input.old }
    ensures explained { IfSome result IsExplained }
    ensures serve { IfNone result (IsSome (serve_of (map string_bytes words.now))) }
    ensures not_serve { IfSome result (λ verdict. IsSome (serve_of (map string_bytes words.now)) → verdict_status verdict ≡ 7) }
    ensures input_alone { IsSome (serve_of (map string_bytes words.now)) → input.new ≡ input.old }
    ensures out_alone { IsSome (serve_of (map string_bytes words.now)) → out.new ≡ out.old }
    ensures native_alone { IsSome (serve_of (map string_bytes words.now)) → native.new ≡ native.old }
    ensures no_net { IfSome result (λ verdict. verdict_status verdict ≢ 10) }
    ensures input_never_falls { S.faults input.old ≤ S.faults input.new }
    ensures out_never_falls { K.faults out.old ≤ K.faults out.new }
{
    commands_are_in_range();
    let Ok(command) = command_of(alloc, words) else {
        return Some(Verdict::Broke(Failure::Memory));
    };
    match server_options(command) {
        Some(_) => None,
        None => {
            let command = without_a_net(command);
            Some(answer_command(alloc, command, input, out, native, app))
        }
    }
}

/// Does what the command wants, or answers that the words named none.
fn answer_command<S: Source, K: Sink, W: World, A: Application>(
    alloc: Global,
    command: Option<OfflineCommand>,
    input: &mut S,
    out: &mut K,
    native: &mut W,
    app: &A,
) -> Verdict
    requires range { (text : TextCommand) → command ≡ Some (OfflineCommand.Text text) → IsInRange (NamedCommand.Text text) }
    requires checked { (check : AnyCheck) → command ≡ Some (OfflineCommand.Verify check) → IsCheckInRange check }
    requires rests { (W.meaning native.old).runs ≡ false }
    ensures answer { (left : List ℕ) (a : Answer) → S.remaining input.old ≡ Some left → IsAnswerOf (A.answer_of app.now) command (W.meaning native.new).answers left a →
        Decided result a (K.written out.old) (K.written out.new) }
    ensures checked { (check : AnyCheck) (left : List ℕ) → command ≡ Some (OfflineCommand.Verify check) → S.remaining input.old ≡ Some left →
        verdict_status result ≢ 4 → verdict_status result ≢ 5 → verdict_status result ≢ 7 →
        (a : Answer) × IsCheckAnswer check (take most_checked_read left) a × FitsAnswer result a (K.written out.old) (K.written out.new) }
    ensures untold { (check : AnyCheck) → command ≡ Some (OfflineCommand.Verify check) → verdict_status result ≢ 0 → verdict_status result ≢ 5 → K.written out.new ≡ K.written out.old }
    ensures read_trace { (check : AnyCheck) → command ≡ Some (OfflineCommand.Verify check) →
        (left : List ℕ) → S.remaining input.old ≡ Some left → verdict_status result ≢ 4 → verdict_status result ≢ 7 → S.remaining input.new ≡ Some (drop most_checked_read left) }
    ensures usage { verdict_status result ≡ 2 → command ≡ None }
    ensures no_net { verdict_status result ≢ 10 }
    ensures no_command { command ≡ None → (verdict_status result ≡ 2) ⊎ (verdict_status result ≡ 7) }
    ensures ran { (text : TextCommand) → command ≡ Some (OfflineCommand.Text text) → (left : List ℕ) → S.remaining input.old ≡ Some left →
        RanSo (verdict_status result) text (take most_read left) (W.meaning native.new) (W.stands_for native.new) (K.written out.old) (K.written out.new) }
    ensures lawful { (options : AnyOptions) → command ≡ Some (OfflineCommand.Text (TextCommand.Run options)) → HasLawfulLines (verdict_status result) (K.written out.old) (K.written out.new) }
    ensures began { (text : TextCommand) → command ≡ Some (OfflineCommand.Text text) → (left : List ℕ) → S.remaining input.old ≡ Some left →
        BeganText W.waits text (take most_read left) (W.meaning native.old) (W.meaning native.new) (K.written out.old) (K.written out.new) (K.handed out.new) (K.faults out.old) (K.faults out.new) }
    ensures untouched { is_native command ≡ false → native.new ≡ native.old }
    ensures left_alone { IsLeftAlone (verdict_status result) (S.remaining input.old) native.old native.new }
    ensures rests { (W.meaning native.new).runs ≡ false }
    ensures connection { (gateway : AnyGateway) → command ≡ Some (OfflineCommand.Wsgi gateway) →
        IsOfConnection result gateway (A.answer_of app.now) (S.remaining input.old) (S.remaining input.new) (K.written out.old) (K.written out.new) }
    ensures handed_ahead { (gateway : AnyGateway) → command ≡ Some (OfflineCommand.Wsgi gateway) → K.handed out.old ≡ K.written out.old →
        HandedAhead (answers_by gateway) (A.answer_of app.now) no_port (S.remaining input.old) (S.remaining input.new) (K.written out.old) (K.handed out.new) }
    ensures storm { (size : ℕ) → command ≡ Some (OfflineCommand.Storm size) → (verdict_status result ≢ 4) × ((a : Answer) → IsStormAnswer size a → Decided result a (K.written out.old) (K.written out.new)) }
    ensures untouched_input { reads_input command ≡ false → input.new ≡ input.old }
    ensures reads { Counts (verdict_status result ≡ 4) (S.faults input.old) (S.faults input.new) }
    ensures hands { HandsOn (verdict_status result) (K.written out.old) (K.handed out.old) (K.written out.new) (K.handed out.new) }
    ensures writes { Counts (verdict_status result ≡ 5) (K.faults out.old) (K.faults out.new) }
    ensures unread { (text : TextCommand) → command ≡ Some (OfflineCommand.Text text) → verdict_status result ≡ 4 → K.written out.new ≡ K.written out.old }
    ensures unprinted { command ≡ Some (OfflineCommand.Text TextCommand.Format) → verdict_status result ≢ 0 → verdict_status result ≢ 5 → K.written out.new ≡ K.written out.old }
    ensures explained { IsExplained result }
    ensures read_whole { (text : TextCommand) → command ≡ Some (OfflineCommand.Text text) →
        (left : List ℕ) → S.remaining input.old ≡ Some left → verdict_status result ≢ 4 → verdict_status result ≢ 7 → S.remaining input.new ≡ Some (drop most_read left) }
{
    match command {
        None => Verdict::Did(Conclusion::Usage),
        Some(OfflineCommand::Text(command)) => answer_input(alloc, command, input, out, native),
        Some(OfflineCommand::Wsgi(gateway)) => {
            verdict_of_connection(answer_through(alloc, gateway, input, out, app))
        }
        Some(OfflineCommand::Storm(size)) => answer_storm(alloc, size, out),
        Some(OfflineCommand::Verify(check)) => answer_check(alloc, check, input, out),
    }
}

/// Reads a text, and does with it what the command wants.
fn answer_input<S: Source, K: Sink, W: World>(
    alloc: Global,
    command: TextCommand,
    input: &mut S,
    out: &mut K,
    native: &mut W,
) -> Verdict
    requires range { IsInRange (NamedCommand.Text command) }
    requires rests { (W.meaning native.old).runs ≡ false }
    ensures ran { (left : List ℕ) → S.remaining input.old ≡ Some left →
        RanSo (verdict_status result) command (take most_read left) (W.meaning native.new) (W.stands_for native.new) (K.written out.old) (K.written out.new) }
    ensures lawful { (options : AnyOptions) → command ≡ TextCommand.Run options → HasLawfulLines (verdict_status result) (K.written out.old) (K.written out.new) }
    ensures began { (left : List ℕ) → S.remaining input.old ≡ Some left →
        BeganText W.waits command (take most_read left) (W.meaning native.old) (W.meaning native.new) (K.written out.old) (K.written out.new) (K.handed out.new) (K.faults out.old) (K.faults out.new) }
    ensures untouched { is_native_text command ≡ false → native.new ≡ native.old }
    ensures left_alone { IsLeftAlone (verdict_status result) (S.remaining input.old) native.old native.new }
    ensures rests { (W.meaning native.new).runs ≡ false }
    ensures answer { (left : List ℕ) → S.remaining input.old ≡ Some left →
        Decided result (answer_to_text command (W.meaning native.new).answers (take most_read left)) (K.written out.old) (K.written out.new) }
    ensures command { verdict_status result ≢ 2 }
    ensures no_net { verdict_status result ≢ 10 }
    ensures unread { verdict_status result ≡ 4 → K.written out.new ≡ K.written out.old }
    ensures unprinted { command ≡ TextCommand.Format → verdict_status result ≢ 0 → verdict_status result ≢ 5 → K.written out.new ≡ K.written out.old }
    ensures explained { IsExplained result }
    ensures reads { Counts (verdict_status result ≡ 4) (S.faults input.old) (S.faults input.new) }
    ensures hands { HandsOn (verdict_status result) (K.written out.old) (K.handed out.old) (K.written out.new) (K.handed out.new) }
    ensures writes { Counts (verdict_status result ≡ 5) (K.faults out.old) (K.faults out.new) }
    ensures read_whole { (left : List ℕ) → S.remaining input.old ≡ Some left →
        verdict_status result ≢ 4 → verdict_status result ≢ 7 → S.remaining input.new ≡ Some (drop most_read left) }
{
    match read_limited(alloc, input, MOST_LONG_TEXT) {
        Err(ReadRefusal::Fault) => Verdict::Broke(Failure::Read),
        Err(ReadRefusal::Memory) => Verdict::Broke(Failure::Memory),
        Ok(bytes) => answer_text(alloc, command, bytes.as_slice(), out, native),
    }
}

fn answer_text<K: Sink, W: World>(
    alloc: Global,
    command: TextCommand,
    bytes: &[u8],
    out: &mut K,
    native: &mut W,
) -> Verdict
    requires range { IsInRange (NamedCommand.Text command) }
    requires rests { (W.meaning native.old).runs ≡ false }
    ensures ran { RanSo (verdict_status result) command bytes.now (W.meaning native.new) (W.stands_for native.new) (K.written out.old) (K.written out.new) }
    ensures lawful { (options : AnyOptions) → command ≡ TextCommand.Run options → HasLawfulLines (verdict_status result) (K.written out.old) (K.written out.new) }
    ensures began { BeganText W.waits command bytes.now (W.meaning native.old) (W.meaning native.new) (K.written out.old) (K.written out.new) (K.handed out.new) (K.faults out.old) (K.faults out.new) }
    ensures untouched { is_native_text command ≡ false → native.new ≡ native.old }
    ensures refused { verdict_status result ≡ 3 → native.new ≡ native.old }
    ensures unspelt { ((s : AnyScenario) → Spells s bytes.now → IsWellFormed s → ⊥) → native.new ≡ native.old }
    ensures rests { (W.meaning native.new).runs ≡ false }
    ensures answer { Decided result (answer_to_text command (W.meaning native.new).answers bytes.now) (K.written out.old) (K.written out.new) }
    ensures command { verdict_status result ≢ 2 }
    ensures no_net { verdict_status result ≢ 10 }
    ensures read { verdict_status result ≢ 4 }
    ensures unprinted { command ≡ TextCommand.Format → verdict_status result ≢ 0 → verdict_status result ≢ 5 → K.written out.new ≡ K.written out.old }
    ensures explained { IsExplained result }
    ensures hands { HandsOn (verdict_status result) (K.written out.old) (K.handed out.old) (K.written out.new) (K.handed out.new) }
    ensures writes { Counts (verdict_status result ≡ 5) (K.faults out.old) (K.faults out.new) }
{
    match read_scenario(alloc, bytes) {
        Err(refusal) => verdict_of_text(refusal),
        Ok(checked) => answer_scenario(alloc, command, checked, out, native),
    }
}

/// Runs the scenario, or writes its printed form.
fn answer_scenario<K: Sink, W: World>(
    alloc: Global,
    command: TextCommand,
    checked: Checked,
    out: &mut K,
    native: &mut W,
) -> Verdict
    requires range { IsInRange (NamedCommand.Text command) }
    requires rests { (W.meaning native.old).runs ≡ false }
    ensures ran { RanScenarioSo (verdict_status result) command checked (W.meaning native.new) (W.stands_for native.new) (K.written out.old) (K.written out.new) }
    ensures lawful { (options : AnyOptions) → command ≡ TextCommand.Run options → HasLawfulLines (verdict_status result) (K.written out.old) (K.written out.new) }
    ensures began { (options : AnyOptions) → command ≡ TextCommand.Run options →
        BeganSo W.waits options checked (W.meaning native.old) (W.meaning native.new) (K.written out.old) (K.written out.new) (K.handed out.new) (K.faults out.old) (K.faults out.new) }
    ensures untouched { is_native_text command ≡ false → native.new ≡ native.old }
    ensures rests { (W.meaning native.new).runs ≡ false }
    ensures answer { Decided result (answer_to_scenario command (W.meaning native.new).answers checked) (K.written out.old) (K.written out.new) }
    ensures command { verdict_status result ≢ 2 }
    ensures no_net { verdict_status result ≢ 10 }
    ensures unrefused { verdict_status result ≢ 3 }
    ensures read { verdict_status result ≢ 4 }
    ensures unprinted { command ≡ TextCommand.Format → verdict_status result ≢ 0 → verdict_status result ≢ 5 → K.written out.new ≡ K.written out.old }
    ensures explained { IsExplained result }
    ensures hands { HandsOn (verdict_status result) (K.written out.old) (K.handed out.old) (K.written out.new) (K.handed out.new) }
    ensures writes { Counts (verdict_status result ≡ 5) (K.faults out.old) (K.faults out.new) }
{
    match command {
        TextCommand::Run(options) => verdict_of_run(run_scenario(
            alloc, checked, options, native, out,
        )),
        TextCommand::Format => {
            let verdict = format_scenario(alloc, checked.scenario(), out);
            checked.give_up();
            verdict
        }
    }
}

/// Writes the printed form of the scenario to out.
#[tactic(auto, using(gv_io::proofs::StreamLaws::writes))]
fn format_scenario<K: Sink>(alloc: Global, scenario: &Scenario, out: &mut K) -> Verdict
    ensures answer { Decided result (formatted scenario.now) (K.written out.old) (K.written out.new) }
    ensures command { verdict_status result ≢ 2 }
    ensures no_net { verdict_status result ≢ 10 }
    ensures unrefused { verdict_status result ≢ 3 }
    ensures read { verdict_status result ≢ 4 }
    ensures unprinted { verdict_status result ≢ 0 → verdict_status result ≢ 5 → K.written out.new ≡ K.written out.old }
    ensures explained { IsExplained result }
    ensures hands { HandsOn (verdict_status result) (K.written out.old) (K.handed out.old) (K.written out.new) (K.handed out.new) }
    ensures writes { Counts (verdict_status result ≡ 5) (K.faults out.old) (K.faults out.new) }
{
    let mut text = Vec::new(alloc);
    let Ok(()) = print(scenario, &mut text) else {
        return Verdict::Broke(Failure::Memory);
    };
    match send(out, text.as_slice()) {
        Ok(()) => Verdict::Did(Conclusion::Finished),
        Err(_) => Verdict::Broke(Failure::Write),
    }
}

/// Writes the bytes to the sink, and hands them on.
#[tactic(auto, using(gv_io::proofs::StreamLaws::writes))]
pub(crate) fn send<K: Sink>(sink: &mut K, bytes: &[u8]) -> Result<(), Failed>
    ensures ok { OnOk result (K.written sink.new ≡ appended (K.written sink.old) bytes.now) }
    ensures cut { OnErr result (AppendsPrefix (K.written sink.old) (K.written sink.new) bytes.now) }
    ensures handed { OnOk result (K.handed sink.new ≡ K.written sink.new) }
    ensures failed { OnErr result (HasRisen (K.faults sink.old) (K.faults sink.new)) }
    ensures unfailed { OnOk result (K.faults sink.new ≡ K.faults sink.old) }
    ensures never_falls { K.faults sink.old ≤ K.faults sink.new }
{
    sink.write_all(bytes)?;
    sink.flush()?;
    Ok(())
}

/// Tries the verdict's line, once.
fn try_line<E: Sink>(verdict: Verdict, line: &[u8], err: &mut E) -> u8
    requires line { line.now ≡ verdict_line verdict }
    requires has_line { verdict_status verdict ≢ 0 }
    ensures told { IsVerdictTold result verdict (E.written err.old) (E.written err.new) (E.faults err.old) (E.faults err.new) }
    ensures handed { result ≢ 5 → E.handed err.old ≡ E.written err.old → E.handed err.new ≡ E.written err.new }
    ensures never_falls { E.faults err.old ≤ E.faults err.new }
{
    match send(err, line) {
        Ok(()) => verdict.number(),
        Err(_) => 5,
    }
}

/// Tells what the call came to: its line goes to err, where it has one. Status 0 has no line, and err is left alone then.
/// Where there is no memory for the line, the verdict is want of memory.
fn tell_conclusion<E: Sink>(alloc: Global, conclusion: Conclusion, err: &mut E) -> u8
    requires { IsExplained (AnyVerdict.Did conclusion) }
    ensures told { (w : AnyVerdict) × IsOr (AnyVerdict.Did conclusion) w × IsVerdictTold result w (E.written err.old) (E.written err.new) (E.faults err.old) (E.faults err.new) }
    ensures handed { result ≢ 5 → E.handed err.old ≡ E.written err.old → E.handed err.new ≡ E.written err.new }
    ensures never_falls { E.faults err.old ≤ E.faults err.new }
{
    if conclusion.number() == 0 {
        return 0;
    }
    match conclusion.line(alloc) {
        Ok(line) => try_line(Verdict::Did(conclusion), line.as_slice(), err),
        Err(_) => try_line(Verdict::Broke(Failure::Memory), Failure::Memory.line(), err),
    }
}

/// Tells the verdict: its line goes to err, where it has one, and its status is answered. The line of what broke the call
/// off takes no memory.
pub fn tell<E: Sink>(alloc: Global, verdict: Verdict, err: &mut E) -> u8
    requires { IsExplained verdict }
    ensures told { (w : AnyVerdict) × IsOr verdict w × IsVerdictTold result w (E.written err.old) (E.written err.new) (E.faults err.old) (E.faults err.new) }
    ensures handed { result ≢ 5 → E.handed err.old ≡ E.written err.old → E.handed err.new ≡ E.written err.new }
    ensures never_falls { E.faults err.old ≤ E.faults err.new }
{
    match verdict {
        Verdict::Did(conclusion) => tell_conclusion(alloc, conclusion, err),
        Verdict::Broke(failure) => try_line(Verdict::Broke(failure), failure.line(), err),
    }
}

/// Does what the words name over these streams, and answers its status; None where they name `serve`, which wants a
/// net.
///
/// `run` reads a scenario, runs it within its budgets of turns and moves, and writes its trace to out. The run is that
/// of a script with the tick of the words; or, with native workers, one in the world `native`, which is begun before it
/// and finished after it and is left alone otherwise. `fmt` reads a scenario, and writes its printed form to out.
/// `wsgi` reads the bytes of one connection, of HTTP (RFC 9112) or, with `--gateway scgi`, of SCGI (N. Schemenauer,
/// 2008), and writes the answers of the application (PEP 3333) to out. `storm` runs many greenlets that hand one unit
/// on, and writes the numbers of that run to out. `verify` reads a scenario, a line of four equals signs and a trace, and
/// writes to out how many lines the trace has, where it is the run of the scenario under the answers that its turn lines
/// name; with `--check laws` the input is a trace, which is checked by the laws of a trace alone.
///
/// The statuses, of which 4, 5 and 7 (want of memory) come before every other:
///
/// - 0: the run's main ended with a value, or `fmt`, `wsgi` or `storm` came to its end, or the trace was verified.
/// - 1: the run's main ended by a fault.
/// - 2: the words are no command.
/// - 3: the input spells no well-formed scenario; with `verify` also where it has no line of four equals signs or is too
///   long.
/// - 4: the input could not be read.
/// - 5: out or err could not be written.
/// - 6: the run would begin one more turn or move than its budget.
/// - 8: the run would pass a limit, or the connection did.
/// - 9: the trace is not the run, or does not meet the laws.
///
/// No fault is hidden: with any status but 5 no write failed, and with any but 4 and 5 no read. 5 hides a read that
/// failed only where err failed at the line of 4.
///
/// Which of 0, 1, 3, 6, 8 and 9 it is, is said by `AnswersCommand`, command by command, and by `AnswersCheck` for `verify`:
/// the status is that of what is answered to the words and the input, and its line on err with it.
pub fn offline<S: Source, K: Sink, E: Sink, W: World, A: Application>(
    alloc: Global,
    words: &[String],
    input: &mut S,
    out: &mut K,
    err: &mut E,
    native: &mut W,
    app: &A,
) -> Option<u8>
    requires rests { (W.meaning native.old).runs ≡ false }
    ensures answers { IfSome result (λ status. AnswersCommand status (A.answer_of app.now) (offline_command_of (map string_bytes words.now)) (W.meaning native.new) (W.stands_for native.new)
        (seen S.remaining S.faults input.old input.new) (seen K.written K.faults out.old out.new) (seen E.written E.faults err.old err.new)) }
    ensures checks { IfSome result (λ status. AnswersCheck status (offline_command_of (map string_bytes words.now))
        (seen S.remaining S.faults input.old input.new) (seen K.written K.faults out.old out.new) (seen E.written E.faults err.old err.new)) }
    ensures borne_out { IfSome result (λ status. IsBorneOut status
        (seen S.remaining S.faults input.old input.new) (seen K.written K.faults out.old out.new) (seen E.written E.faults err.old err.new)) }
    // Native workers were asked, with held order too, only after what the run says before was written, and handed on where
    // they may be long in answering; with every status they were posted the run's jobs alone. Or no run was begun.
    ensures began { IfSome result (λ status. (options : AnyOptions) (s : AnyScenario) (left : List ℕ) → offline_command_of (map string_bytes words.now) ≡ Some (OfflineCommand.Text (TextCommand.Run options)) →
        S.remaining input.old ≡ Some left → Spells s (take most_read left) → IsWellFormed s →
        BeganSo W.waits options s (W.meaning native.old) (W.meaning native.new) (K.written out.old) (K.written out.new) (K.handed out.new) (K.faults out.old) (K.faults out.new)) }
    // All that was written is handed on, where all was before.
    ensures handed { IfSome result (λ status. HandsOn status (K.written out.old) (K.handed out.old) (K.written out.new) (K.handed out.new)) }
    ensures err_handed { IfSome result (λ status. status ≢ 5 → E.handed err.old ≡ E.written err.old → E.handed err.new ≡ E.written err.new) }
    // A peer that waits is answered: what is due for all bytes of a connection but those of the last read was handed on.
    ensures handed_ahead { IfSome result (λ status. (gateway : AnyGateway) → offline_command_of (map string_bytes words.now) ≡ Some (OfflineCommand.Wsgi gateway) → K.handed out.old ≡ K.written out.old →
        HandedAhead (answers_by gateway) (A.answer_of app.now) no_port (S.remaining input.old) (S.remaining input.new) (K.written out.old) (K.handed out.new)) }
    ensures untouched { is_native (offline_command_of (map string_bytes words.now)) ≡ false → native.new ≡ native.old }
    ensures left_alone { IfSome result (λ status. IsLeftAlone status (S.remaining input.old) native.old native.new) }
    ensures native_rests { (W.meaning native.new).runs ≡ false }
    // A storm reads no input; neither do words that are no command.
    ensures untouched_input { reads_input (offline_command_of (map string_bytes words.now)) ≡ false → input.new ≡ input.old }
    ensures usage_only { IfSome result (λ status. status ≡ 2 → (offline_command_of (map string_bytes words.now) ≡ None) × (serve_of (map string_bytes words.now) ≡ None)) }
    // None: the words name `serve`, and nothing was done. Where they name it and memory ran out as they were read, the
    // status is that of this, and err alone was touched.
    ensures serve { IfNone result (IsSome (serve_of (map string_bytes words.now))) }
    ensures not_serve { IfSome result (λ status. IsSome (serve_of (map string_bytes words.now)) → (status ≡ 5) ⊎ (status ≡ 7)) }
    ensures input_alone { IsSome (serve_of (map string_bytes words.now)) → input.new ≡ input.old }
    ensures out_alone { IsSome (serve_of (map string_bytes words.now)) → out.new ≡ out.old }
    ensures native_alone { IsSome (serve_of (map string_bytes words.now)) → native.new ≡ native.old }
    ensures err_alone { IfNone result (err.new ≡ err.old) }
    ensures no_net { IfSome result (λ status. status ≢ 10) }
    ensures input_never_falls { S.faults input.old ≤ S.faults input.new }
    ensures out_never_falls { K.faults out.old ≤ K.faults out.new }
    ensures err_never_falls { E.faults err.old ≤ E.faults err.new }
{
    blocks_are_quiet();
    blocks_are_told();
    match decide(alloc, words, input, out, native, app) {
        Some(verdict) => Some(tell(alloc, verdict, err)),
        None => None,
    }
}
