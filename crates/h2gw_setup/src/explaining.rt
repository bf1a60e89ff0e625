//! Where a configuration is wrong, and what could stand there.

use configuration::{ConfigFault, Key};
use std::io;
use std::io::Eprint;
use std::net::SocketAddr;
use toml::{Table, Value};

/// The keys of the whole table, and those of a route.
const TABLE_KEYS: [Key; 8] = [
    Key::Policy,
    Key::Passing,
    Key::MaxBody,
    Key::MaxResponse,
    Key::Keep,
    Key::Idle,
    Key::Window,
    Key::Route,
];

const ROUTE_KEYS: [Key; 3] = [Key::Authority, Key::Prefix, Key::Upstream];

/// Says on standard error where the configuration of this text is wrong, and what could stand
/// there. An `Err` says that this can't be printed. Of want of memory nothing is said.
pub fn explain<R: Eprint + AllocGlobal>(rt: &R, fault: ConfigFault, text: &str) -> io::Result<()> {
    let table = match toml::table_from_str(rt.alloc(), text) {
        Ok(table) => table,
        Err(error) if error.is_memory() => return Ok(()),
        Err(error) => return rt.eprint(error),
    };
    match fault {
        ConfigFault::Bad(key) if ROUTE_KEYS.contains(&key) => explain_route(rt, key, &table),
        ConfigFault::Bad(key) => explain_key(rt, key, &table),
        ConfigFault::UnknownKey => explain_unknown(rt, &table),
        ConfigFault::NotToml | ConfigFault::Memory => Ok(()),
    }
}

/// Says what could stand at a key of the whole table, and what stands there.
fn explain_key<R: Eprint>(rt: &R, key: Key, table: &Table) -> io::Result<()> {
    let name = name_of(key);
    let values = values_of(key);
    match table.get(name) {
        Some(value) => eprintln!(rt; "{name} takes {values}, and is {value}"),
        None => eprintln!(rt; "{name} takes {values}"),
    }
}

/// Says what could stand at a key of a route, and which is the first one without that.
fn explain_route<R: Eprint>(rt: &R, key: Key, table: &Table) -> io::Result<()> {
    let name = name_of(key);
    let values = values_of(key);
    let mut place = 0u64;
    for route in routes_of(table) {
        place = place.saturating_add(1);
        let found = match route.as_table() {
            Some(table) => table.get(name),
            None => None,
        };
        match found {
            Some(value) if is_right(key, value) => {}
            Some(value) => {
                return eprintln!(rt; "route {place}: {name} takes {values}, and is {value}");
            }
            None if key == Key::Authority => {}
            None => return eprintln!(rt; "route {place}: {name} is missing: it takes {values}"),
        }
    }
    Ok(())
}

/// Says which keys nobody knows, in the whole table and in its routes.
fn explain_unknown<R: Eprint>(rt: &R, table: &Table) -> io::Result<()> {
    say_unknown(rt, table, &TABLE_KEYS, 0)?;
    let mut place = 0u64;
    for route in routes_of(table) {
        place = place.saturating_add(1);
        if let Some(table) = route.as_table() {
            say_unknown(rt, table, &ROUTE_KEYS, place)?;
        }
    }
    Ok(())
}

/// Says which keys of a table are none of these. The table is that of the route at this place, from
/// 1, or the whole one, at 0.
fn say_unknown<R: Eprint>(rt: &R, table: &Table, keys: &[Key], place: u64) -> io::Result<()> {
    for name in table.keys() {
        if is_among(keys, name) {
            continue;
        }
        if place == 0 {
            eprintln!(rt; "unknown: {name}")?;
        } else {
            eprintln!(rt; "route {place}: unknown: {name}")?;
        }
    }
    Ok(())
}

/// Whether this is the name of one of these keys.
fn is_among(keys: &[Key], name: &str) -> bool {
    keys.iter().any(|key| name_of(*key) == name)
}

/// The values of the routes: none where the key has no array.
fn routes_of(table: &Table) -> &[Value] {
    match table.get("route") {
        Some(Value::Array(routes)) => routes,
        _ => &[],
    }
}

/// Whether this may stand at a key of a route.
fn is_right(key: Key, value: &Value) -> bool {
    let Some(text) = value.as_str() else {
        return false;
    };
    match key {
        Key::Prefix => text.starts_with("/"),
        Key::Upstream => text.parse::<SocketAddr>().is_ok(),
        _ => true,
    }
}

/// The name of a key.
fn name_of(key: Key) -> &'static str {
    match key {
        Key::Policy => "policy",
        Key::Passing => "passing",
        Key::MaxBody => "max_body",
        Key::MaxResponse => "max_response",
        Key::Keep => "keep",
        Key::Idle => "idle",
        Key::Window => "window",
        Key::Route => "route",
        Key::Authority => "authority",
        Key::Prefix => "prefix",
        Key::Upstream => "upstream",
    }
}

/// What may stand at a key.
fn values_of(key: Key) -> &'static str {
    match key {
        Key::Policy => "\"plain\" or \"indexing\"",
        Key::Passing => "\"whole\" or \"streaming\"",
        Key::MaxBody | Key::MaxResponse => "a whole number from 0 to 1073741824",
        Key::Keep => "true or false",
        Key::Idle => "a whole number from 0 to 100",
        Key::Window => "a whole number from 65535 to 1048576",
        Key::Route => "tables, each headed [[route]]",
        Key::Authority => "a text",
        Key::Prefix => "a text that begins with \"/\"",
        Key::Upstream => "a numeric address and port, as \"127.0.0.1:8080\"",
    }
}
