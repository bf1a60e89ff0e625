//! The configuration that a text of TOML is.

ghost use Rattle.std.specs.Prelude.{◌≡◌, map, List, string_bytes, IfOk, IfErr};
ghost use Rattle.std.specs.List.{list_all};
ghost use Rattle.std.specs.BTreeMap.{keys};
ghost use Rattle.toml.specs.Data.{Members, as_table, table as as_data};
ghost use Rattle.toml.specs.Parse.{parse_document};
ghost use Rattle.toml.specs.View.{view, table_view};
ghost use Rattle.gateway.specs.Setups.{setup_of, IsServable};
ghost use Rattle.configuration.specs.Configs.{table_names, route_names, is_among, IsRoute, AreRoutes, IsConfig, IsNoConfig, Configures, ConfiguresNothing};
ghost use Rattle.configuration.specs.Steps.{IsNoRoute, AreNoRoutes, is_only};

use crate::faults::{ConfigFault, Key};
use crate::keys::{
    authority_in, idle_in, keep_in, most_in, passing_in, policy_in, prefix_in, routes_in,
    upstream_in, window_in,
};
use gateway::{Config, Route};
use std::alloc::Global;
use toml::{Table, Value};

/// Reads a configuration, which is a table of TOML. Each key may be left out but the two that a
/// route needs:
///
/// - `policy`, how header blocks are written: `"plain"`, the default, or `"indexing"`.
/// - `passing`, how bodies are passed on: `"whole"`, the default, or `"streaming"`, as they come.
/// - `max_body` and `max_response`, the most octets of a request's body, and of a response's where
///   bodies are passed on whole: 0 to 1,073,741,824, and 1,048,576 by default.
/// - `keep`, whether upstream connections are kept for further requests: `false`, the default, or
///   `true`.
/// - `idle`, how many of them may be idle at once, beside those that serve a request: 0 to 100, and
///   8 by default. With 0 each is closed behind its response.
/// - `window`, the octets that receiving windows have at first, those of streams and that of the
///   connection: 65,535 to 1,048,576, and 65,535 by default.
/// - `route`, an array of at most 4,294,967,295 tables, none by default, each with
///   - `authority`, that of the requests: a text, empty by default, which is any authority;
///   - `prefix`, what their paths begin with: a text that begins with `/`;
///   - `upstream`, where they go: a numeric address and port.
///
/// The keys are judged in this order, the routes one after another, and the first that is wrong is
/// named. That there is another key comes after all of them. `Memory` is answered where a growth
/// was refused.
pub fn read_config(alloc: Global, text: &str) -> Result<Config, ConfigFault>
    ensures ok { IfOk result (λ config. Configures (parse_document text.now) config) }
    ensures err { IfErr result (λ fault. ConfiguresNothing (parse_document text.now) fault) }
    // A gateway can be set up with it.
    ensures servable { IfOk result (λ config. IsServable (setup_of config)) }
{
    match toml::table_from_str(alloc, text) {
        Ok(table) => read_table(alloc, &table),
        Err(error) => {
            if error.is_memory() {
                Err(ConfigFault::Memory)
            } else {
                Err(ConfigFault::NotToml)
            }
        }
    }
}

/// The configuration that a table is.
fn read_table(alloc: Global, table: &Table) -> Result<Config, ConfigFault>
    ensures ok { IfOk result (λ config. IsConfig (table_view table.now) config) }
    ensures err { IfErr result (λ fault. IsNoConfig (table_view table.now) fault) }
{
    let Some(policy) = policy_in(table) else {
        return Err(ConfigFault::Bad(Key::Policy));
    };
    let Some(passing) = passing_in(table) else {
        return Err(ConfigFault::Bad(Key::Passing));
    };
    let Some(max_body) = most_in(table, "max_body") else {
        return Err(ConfigFault::Bad(Key::MaxBody));
    };
    let Some(max_response) = most_in(table, "max_response") else {
        return Err(ConfigFault::Bad(Key::MaxResponse));
    };
    let Some(keep) = keep_in(table) else {
        return Err(ConfigFault::Bad(Key::Keep));
    };
    let Some(idle) = idle_in(table) else {
        return Err(ConfigFault::Bad(Key::Idle));
    };
    let Some(window) = window_in(table) else {
        return Err(ConfigFault::Bad(Key::Window));
    };
    let Some(values) = routes_in(table) else {
        return Err(ConfigFault::Bad(Key::Route));
    };
    let routes = match read_routes(alloc, values) {
        Ok(routes) => routes,
        Err(fault) => return Err(fault),
    };
    if !has_table_keys(table) {
        return Err(ConfigFault::UnknownKey);
    }
    if !are_known_routes(values) {
        return Err(ConfigFault::UnknownKey);
    }
    Ok(Config {
        routes,
        policy,
        passing,
        max_body,
        max_response,
        keep,
        idle,
        window,
    })
}

/// The routes that values are, if they are tables. They are judged one after another.
fn read_routes(alloc: Global, values: &[Value]) -> Result<Vec<Route>, ConfigFault>
    ensures ok { IfOk result (λ routes. (tables : List Members) → map view values.now ≡ map as_data tables → AreRoutes tables routes.items) }
    ensures err { IfErr result (λ fault. (tables : List Members) → map view values.now ≡ map as_data tables → AreNoRoutes tables fault) }
{
    let mut routes = Vec::new(alloc);
    for value in values {
        let Some(table) = value.as_table() else {
            return Err(ConfigFault::Bad(Key::Route));
        };
        match read_route(alloc, table) {
            Ok(route) => routes.push(route).map_err(|_| ConfigFault::Memory)?,
            Err(fault) => return Err(fault),
        }
    }
    Ok(routes)
}

/// The route that a table is.
fn read_route(alloc: Global, table: &Table) -> Result<Route, ConfigFault>
    ensures ok { IfOk result (λ route. IsRoute (table_view table.now) route) }
    ensures err { IfErr result (λ fault. IsNoRoute (table_view table.now) fault) }
{
    let Some(authority) = authority_in(table) else {
        return Err(ConfigFault::Bad(Key::Authority));
    };
    let Some(prefix) = prefix_in(table) else {
        return Err(ConfigFault::Bad(Key::Prefix));
    };
    let Some(upstream) = upstream_in(table) else {
        return Err(ConfigFault::Bad(Key::Upstream));
    };
    Ok(Route {
        authority: Vec::from_slice(alloc, authority.as_bytes())?,
        prefix: Vec::from_slice(alloc, prefix.as_bytes())?,
        upstream: String::from_str(alloc, upstream)?,
    })
}

/// Whether this is the name of a key of the whole table.
fn is_table_key(name: &str) -> bool
    ensures { result ≡ is_among table_names name.now }
{
    matches!(
        name,
        "policy" | "passing" | "max_body" | "max_response" | "keep" | "idle" | "window" | "route"
    )
}

/// Whether this is the name of a key of a route.
fn is_route_key(name: &str) -> bool
    ensures { result ≡ is_among route_names name.now }
{
    matches!(name, "authority" | "prefix" | "upstream")
}

/// Whether a table has no key but those of the whole table.
fn has_table_keys(table: &Table) -> bool
    ensures { result ≡ list_all (λ name. is_among table_names (string_bytes name)) (keys table.now) }
{
    table.keys().all(|name| is_table_key(name.as_str()))
}

/// Whether a table has no key but those of a route.
fn has_route_keys(table: &Table) -> bool
    ensures { result ≡ list_all (λ name. is_among route_names (string_bytes name)) (keys table.now) }
{
    table.keys().all(|name| is_route_key(name.as_str()))
}

/// Whether a value is a table that has no key but those of a route.
fn is_known_route(value: &Value) -> bool
    ensures { result ≡ is_only route_names (as_table (view value.now)) }
{
    match value.as_table() {
        Some(table) => has_route_keys(table),
        None => false,
    }
}

/// Whether values are tables that have no key but those of a route.
fn are_known_routes(values: &[Value]) -> bool
    ensures { result ≡ list_all (λ value. is_only route_names (as_table (view value))) values.now }
{
    values.iter().all(|value| is_known_route(value))
}
