//! Why the program stops.

ghost use Rattle.std.specs.Prelude.{◌≡◌, ◌⊎◌, if◌then◌else◌, is_ok};
ghost use Rattle.h2replay_setup.specs.Stops.{status_of};

use clap::error::ErrorKind;
use command_line::WordsFault;
use configuration::ConfigFault;
use std::io;

/// Why the program stops before a script is replayed.
#[derive(Debug, Drop)]
pub enum Stop {
    /// The command line is refused, or asks for help or for the version.
    Words(WordsFault),
    /// The configuration can't be read, or isn't UTF-8, as the system says.
    NoConfig(io::Error),
    /// The configuration isn't taken.
    Config(ConfigFault),
    /// The script can't be read, or isn't UTF-8, as the system says.
    NoScript(io::Error),
    /// No memory was left.
    Memory,
}

impl Stop {
    /// The program's exit status.
    pub fn status(&self) -> u8
        ensures { result ≡ status_of self.now }
    {
        match self {
            Stop::Words(WordsFault::Clap(error)) => match error.kind() {
                ErrorKind::DisplayHelp | ErrorKind::DisplayVersion => 0,
                _ => 1,
            },
            Stop::Words(WordsFault::Memory) | Stop::Config(ConfigFault::Memory) | Stop::Memory => 2,
            Stop::Words(_) | Stop::NoConfig(_) | Stop::Config(_) | Stop::NoScript(_) => 1,
        }
    }
}

impl From<WordsFault> for Stop {
    ghost use Rattle.std.specs.Prelude.{◌≡◌};
    ghost use Rattle.h2replay_setup.specs.declared.stops.Stop.TheVariants.{Words};

    ghost from_gives = { λ fault stop. stop ≡ Words fault };

    fn from(fault: WordsFault) -> Stop {
        Stop::Words(fault)
    }
}

/// Says why the program stops, in one line on standard error, and in a second the system's reason,
/// if it gave one; help and the version go to standard output. Of want of memory nothing is said.
/// The answer is the exit status, or 2 where that can't be said.
pub fn report(rt: &HostRuntime, stop: &Stop) -> u8
    ensures { (result ≡ status_of stop.now) ⊎ (result ≡ 2) }
{
    let printed = match stop {
        Stop::Words(WordsFault::Clap(error)) => error.print(rt),
        Stop::Words(WordsFault::Missing(word)) => eprintln!(rt; "{}: missing", word.name()),
        Stop::Words(WordsFault::MissingBoth) => rt.eprintln("config: missing\nlisten: missing"),
        Stop::Words(WordsFault::NotANumber(word)) => {
            eprintln!(rt; "{}: not a number", word.name())
        }
        Stop::Words(WordsFault::NotUtf8) => rt.eprintln("arguments: not UTF-8"),
        Stop::NoConfig(error) => eprintln!(rt; "config: cannot read\n{error}"),
        Stop::Config(ConfigFault::Memory) => Ok(()),
        Stop::Config(fault) => rt.eprintln(fault.line()),
        Stop::NoScript(error) => eprintln!(rt; "script: cannot read\n{error}"),
        Stop::Words(WordsFault::Memory) | Stop::Memory => Ok(()),
    };
    status_said(stop, printed)
}

/// The exit status, where it was tried to say why the program stops.
fn status_said(stop: &Stop, printed: io::Result<()>) -> u8
    ensures { result ≡ if is_ok printed then status_of stop.now else 2 }
{
    match printed {
        Ok(()) => stop.status(),
        Err(_) => 2,
    }
}
