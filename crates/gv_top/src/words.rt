//! The commands of the program, of those that words name.
ghost use Rattle.std.specs.Prelude.{◌≡◌, option_and_then};
ghost use Rattle.gv_top.specs.Words.{built, serving};

use command_words::{GatewayKind, NamedCommand, ServeOptions, TextCommand, TraceCheck};

/// What the program is asked to do without a net.
#[derive(Clone, Copy)]
pub enum OfflineCommand {
    /// Do this with the scenario that the input spells.
    Text(TextCommand),
    /// Answer the connection whose bytes the input gives, through this gateway.
    Wsgi(GatewayKind),
    /// Run the storm of so many greenlets.
    Storm(u32),
    /// Check this of the trace that the input has.
    Verify(TraceCheck),
}

/// The command, if it is built and needs no net.
fn built(command: NamedCommand) -> Option<OfflineCommand>
    ensures { result ≡ built command }
{
    match command {
        NamedCommand::Text(command) => Some(OfflineCommand::Text(command)),
        NamedCommand::Wsgi(gateway) => Some(OfflineCommand::Wsgi(gateway)),
        NamedCommand::Serve(_) => None,
        NamedCommand::Storm(size) => Some(OfflineCommand::Storm(size)),
        NamedCommand::Verify(check) => Some(OfflineCommand::Verify(check)),
    }
}

/// What words that name this command ask for without a net.
pub fn without_a_net(command: Option<NamedCommand>) -> Option<OfflineCommand>
    ensures { result ≡ option_and_then built command }
{
    match command {
        Some(command) => built(command),
        None => None,
    }
}

/// The options of the server that words ask for which name this command.
pub fn server_options(command: Option<NamedCommand>) -> Option<ServeOptions>
    ensures { result ≡ option_and_then serving command }
{
    match command {
        Some(NamedCommand::Serve(options)) => Some(options),
        _ => None,
    }
}
