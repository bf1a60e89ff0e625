//! The words that a program was started with.

ghost use Rattle.std.specs.Prelude.{◌≡◌, ◌⊎◌, IfErr};
ghost use Rattle.command_line.specs.Arguments.{fault_at};

use crate::words::WordsFault;
use std::env;
use std::env::Env;
use std::io::ErrorKind;

/// The words of the command line, from the program's name on. An argument that isn't UTF-8 is a fault.
pub fn read_arguments<R: Env + AllocGlobal>(rt: &R) -> Result<Vec<String>, WordsFault>
    ensures { IfErr result (λ fault. (fault ≡ WordsFault.NotUtf8) ⊎ (fault ≡ WordsFault.Memory)) }
{
    let given = match env::args(rt) {
        Ok(given) => given,
        Err(error) => return Err(fault_of_kind(error.kind())),
    };
    let mut arguments = Vec::new(rt.alloc());
    for argument in given {
        if arguments.push(argument).is_err() {
            return Err(WordsFault::Memory);
        }
    }
    Ok(arguments)
}

/// The fault where arguments can't be read.
fn fault_of_kind(kind: ErrorKind) -> WordsFault
    ensures { result ≡ fault_at kind }
{
    match kind {
        ErrorKind::OutOfMemory => WordsFault::Memory,
        _ => WordsFault::NotUtf8,
    }
}
