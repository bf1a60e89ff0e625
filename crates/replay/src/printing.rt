//! Outputs as lines of text.

ghost use Rattle.std.specs.Prelude.{◌≡◌, ◌++◌, map, string_bytes, IfOk, OnOk};
ghost use Rattle.hex.specs.Hex.{encode_lower};
ghost use Rattle.gateway.specs.Views.{output_of, outputs_of};
ghost use Rattle.replay.specs.Printing.{line_of, lines_of_step, text_of};

use gateway::Output;
use std::alloc::{AllocError, Global};

/// The outputs of all steps, one line each.
pub fn print_steps(alloc: Global, steps: &[Vec<Output>]) -> Result<String, AllocError>
    ensures { IfOk result (λ text. string_bytes text ≡ text_of (map (λ step. outputs_of step.items) steps.now)) }
{
    let mut text = String::new(alloc);
    for step in steps {
        print_step(step, &mut text)?;
    }
    Ok(text)
}

/// Adds the outputs of a step, one line each.
fn print_step(outputs: &[Output], text: &mut String) -> Result<(), AllocError>
    ensures { OnOk result (string_bytes text.new ≡ string_bytes text.old ++ lines_of_step (outputs_of outputs.now)) }
{
    for output in outputs {
        print_output(output, text)?;
    }
    Ok(())
}

/// Adds an output as a line.
fn print_output(output: &Output, text: &mut String) -> Result<(), AllocError>
    ensures { OnOk result (string_bytes text.new ≡ string_bytes text.old ++ line_of (output_of output.now)) }
{
    match output {
        Output::Client(octets) => {
            text.push_str("C ")?;
            print_hex(octets, text)?;
        }
        Output::Open(k, route) => write!(text, "O {k} {route}")?,
        Output::Up(k, octets) => {
            write!(text, "U {k} ")?;
            print_hex(octets.as_slice(), text)?;
        }
        Output::Close(k) => write!(text, "X {k}")?,
        Output::CloseClient => text.push_str("XC")?,
    }
    text.push_str("\n")
}

/// Adds octets in lower-case hex.
fn print_hex(octets: &[u8], text: &mut String) -> Result<(), AllocError>
    ensures { OnOk result (string_bytes text.new ≡ string_bytes text.old ++ encode_lower octets.now) }
{
    let digits = hex::encode(*text.allocator(), octets)?;
    text.push_str(&digits)
}
