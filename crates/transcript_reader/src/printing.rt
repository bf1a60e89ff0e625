//! What each event puts out.

ghost use Rattle.gateway.specs.Setups.{setup_of, IsServable};

use gateway::{Config, Event, Output, RunFault, run_into};
use replay::print_steps;
use std::alloc::{AllocError, Global};

/// The first event that doesn't put out what is wanted of it, with that and with what came.
fn difference_among(
    alloc: Global,
    steps: &[Vec<Output>],
    wanted: &[String],
) -> Result<Option<String>, AllocError> {
    for (place, lines) in wanted.iter().enumerate() {
        let step = steps.get(place..place.saturating_add(1)).unwrap_or(&[]);
        let came = print_steps(alloc, step)?;
        if came.as_str() != lines.as_str() {
            let number = place.saturating_add(1);
            let text = format!(in alloc; "event {number}\nwanted\n{lines}came\n{came}")?;
            return Ok(Some(text));
        }
    }
    Ok(None)
}

/// What differs from what is wanted of each event.
pub(crate) fn difference(
    alloc: Global,
    config: &Config,
    events: &[Event],
    wanted: &[String],
) -> Result<Option<String>, AllocError>
    requires { IsServable (setup_of config.now) }
{
    let mut steps = Vec::new(alloc);
    match run_into(alloc, config, events, &mut steps) {
        Ok(()) => difference_among(alloc, &steps, wanted),
        Err(RunFault::NotAdmitted(place)) => {
            let number = place.saturating_add(1);
            Ok(Some(format!(in alloc; "event {number} may not come")?))
        }
        Err(RunFault::Memory(_)) => Err(AllocError),
    }
}
