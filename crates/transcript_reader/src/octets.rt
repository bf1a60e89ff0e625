//! Octets that come one by one.

ghost use Rattle.gateway.specs.Setups.{setup_of, IsServable};

use crate::runs::{Told, drive};
use frames::{Split, View, split};
use gateway::{Config, Event};
use replay::read_script;
use std::alloc::{AllocError, Global};

/// Whose octets are cut.
#[derive(Clone, Copy)]
enum Side {
    Client,
    Upstreams,
}

/// Whether it may differ where DATA is cut.
#[derive(Clone, Copy, PartialEq, Eq)]
pub enum Data {
    Same,
    Joined,
}

fn push_octets_of_client(
    alloc: Global,
    piece: &[u8],
    events: &mut Vec<Event>,
) -> Result<(), AllocError> {
    for octet in piece {
        events.push(Event::Client(vec![in alloc; *octet]?))?;
    }
    Ok(())
}

fn push_octets_of_upstream(
    alloc: Global,
    k: u32,
    piece: &[u8],
    events: &mut Vec<Event>,
) -> Result<(), AllocError> {
    for octet in piece {
        events.push(Event::Up(k, vec![in alloc; *octet]?))?;
    }
    Ok(())
}

/// The events, but for the octets of one side one by one.
fn in_octets(alloc: Global, events: Vec<Event>, side: Side) -> Result<Vec<Event>, AllocError> {
    let mut cut = Vec::new(alloc);
    for event in events {
        match (event, side) {
            (Event::Client(piece), Side::Client) => push_octets_of_client(alloc, &piece, &mut cut)?,
            (Event::Up(k, piece), Side::Upstreams) => {
                push_octets_of_upstream(alloc, k, &piece, &mut cut)?;
            }
            (other, _) => cut.push(other)?,
        }
    }
    Ok(cut)
}

/// What is put out where the octets of a side come one by one.
fn told_by_octets(
    alloc: Global,
    config: &Config,
    script: &str,
    side: Side,
) -> Result<Told, AllocError>
    requires { IsServable (setup_of config.now) }
{
    let Ok(events) = read_script(alloc, script) else {
        return Err(AllocError);
    };
    drive(alloc, config, &in_octets(alloc, events, side)?, &[])
}

/// Adds a frame, but for where DATA is cut: behind DATA of the same stream its octets alone. Says
/// of which stream it was DATA that goes on.
fn push_joined(
    view: View<'_>,
    frame: &[u8],
    last: Option<u32>,
    text: &mut Vec<u8>,
) -> Result<Option<u32>, AllocError> {
    if view.kind != 0 {
        text.extend_from_slice(frame)?;
        return Ok(None);
    }
    if last != Some(view.id) {
        text.extend_from_slice(b"DATA")?;
        text.extend_from_slice(&view.id.to_be_bytes())?;
    }
    text.extend_from_slice(view.payload)?;
    if view.flags == 0 {
        return Ok(Some(view.id));
    }
    text.extend_from_slice(b"END_STREAM")?;
    Ok(None)
}

/// Frames without where DATA is cut.
fn joined(alloc: Global, frames: &[u8]) -> Result<Vec<u8>, AllocError> {
    let mut text = Vec::new(alloc);
    let mut last = None;
    let mut rest = frames;
    for _ in 0..frames.len() {
        match split(rest) {
            Split::Frame(view, used) => {
                last = push_joined(view, rest.get(..used).unwrap_or(&[]), last, &mut text)?;
                rest = rest.get(used..).unwrap_or(&[]);
            }
            _ => {
                text.extend_from_slice(rest)?;
                return Ok(text);
            }
        }
    }
    Ok(text)
}

/// Whether the same is put out in all, or the same but for where DATA is cut.
fn is_alike(alloc: Global, whole: &Told, cut: &Told, data: Data) -> Result<bool, AllocError> {
    if data == Data::Same {
        return Ok(cut.is_same(whole));
    }
    let alike = joined(alloc, &whole.client)?.as_slice() == joined(alloc, &cut.client)?.as_slice();
    Ok(alike && cut.is_same_upstream(whole))
}

/// What differs from the whole run of a script where octets of the client come one by one, or then
/// those of upstreams; these alone may be put out with DATA cut elsewhere.
pub(crate) fn difference(
    alloc: Global,
    config: &Config,
    script: &str,
    events: &[Event],
    data: Data,
) -> Result<Option<String>, AllocError>
    requires { IsServable (setup_of config.now) }
{
    let whole = drive(alloc, config, events, &[])?;
    if whole.strays > 0 {
        return Ok(Some(String::from_str(alloc, "an event that may not come")?));
    }
    let client = told_by_octets(alloc, config, script, Side::Client)?;
    if !client.is_same(&whole) {
        return Ok(Some(String::from_str(alloc, "octets of the client")?));
    }
    let upstreams = told_by_octets(alloc, config, script, Side::Upstreams)?;
    if !is_alike(alloc, &whole, &upstreams, data)? {
        return Ok(Some(String::from_str(alloc, "octets of upstreams")?));
    }
    Ok(None)
}
