//! What stands at the keys of a table.

ghost use Rattle.std.specs.Prelude.{◌≡◌, List, map, MatchOption, is_some, option_map, option_copied, codes};
ghost use Rattle.std.specs.List.{list_all};
ghost use Rattle.toml.specs.Data.{Members, get_member, as_table, table as as_data};
ghost use Rattle.toml.specs.View.{view, table_view};
ghost use Rattle.configuration.specs.Keys.{text_at as the_text, number_at as the_number, bool_at as the_bool, IsPolicy};
ghost use Rattle.configuration.specs.Keys.{IsPassing, IsMost, IsKeep, IsIdle, IsWindow, IsAuthority, IsPrefix, IsUpstream};
ghost use Rattle.configuration.specs.Keys.{array_at, AreTables, Lacks};

use gateway::{Passing, Policy};
use std::net::SocketAddr;
use toml::{Table, Value};

/// The most routes: the place of each is a number of 32 bits.
const MOST_ROUTES: usize = 4_294_967_295;

/// The value at a key.
fn value_at<'a>(table: &'a Table, key: &str) -> Option<&'a Value>
    ensures { option_map (λ value. view value.now) result ≡ get_member key.now (table_view table.now) }
{
    table.get(key)
}

/// The text at a key: none where nothing stands there, and no text where something else does.
fn text_at<'a>(table: &'a Table, key: &str) -> Option<Option<&'a str>>
    ensures { option_map option_copied result ≡ the_text key.now (table_view table.now) }
{
    match value_at(table, key) {
        None => None,
        Some(value) => Some(value.as_str()),
    }
}

/// The number at a key, likewise.
fn number_at(table: &Table, key: &str) -> Option<Option<i64>>
    ensures { result ≡ the_number key.now (table_view table.now) }
{
    match value_at(table, key) {
        None => None,
        Some(value) => Some(value.as_integer()),
    }
}

/// Whether a key says yes or no, likewise.
fn bool_at(table: &Table, key: &str) -> Option<Option<bool>>
    ensures { result ≡ the_bool key.now (table_view table.now) }
{
    match value_at(table, key) {
        None => None,
        Some(value) => Some(value.as_bool()),
    }
}

/// How header blocks are written.
pub fn policy_in(table: &Table) -> Option<Policy>
    ensures { MatchOption result (Lacks (IsPolicy (the_text (codes "policy") (table_view table.now))))
        (IsPolicy (the_text (codes "policy") (table_view table.now))) }
{
    match text_at(table, "policy") {
        None | Some(Some("plain")) => Some(Policy::Plain),
        Some(Some("indexing")) => Some(Policy::Indexing),
        Some(_) => None,
    }
}

/// How bodies are passed on.
pub fn passing_in(table: &Table) -> Option<Passing>
    ensures { MatchOption result (Lacks (IsPassing (the_text (codes "passing") (table_view table.now))))
        (IsPassing (the_text (codes "passing") (table_view table.now))) }
{
    match text_at(table, "passing") {
        None | Some(Some("whole")) => Some(Passing::Whole),
        Some(Some("streaming")) => Some(Passing::Streaming),
        Some(_) => None,
    }
}

/// The most octets of bodies, by the key.
pub fn most_in(table: &Table, key: &str) -> Option<u64>
    ensures { MatchOption result (Lacks (IsMost (the_number key.now (table_view table.now)))) (IsMost (the_number key.now (table_view table.now))) }
{
    match number_at(table, key) {
        None => Some(1_048_576),
        Some(number) => match u64::try_from(number?) {
            Ok(most) if most <= 1_073_741_824 => Some(most),
            _ => None,
        },
    }
}

/// Whether upstream connections are kept.
pub fn keep_in(table: &Table) -> Option<bool>
    ensures { MatchOption result (Lacks (IsKeep (the_bool (codes "keep") (table_view table.now)))) (IsKeep (the_bool (codes "keep") (table_view table.now))) }
{
    match bool_at(table, "keep") {
        None => Some(false),
        Some(keep) => keep,
    }
}

/// How many upstream connections may be idle.
pub fn idle_in(table: &Table) -> Option<u8>
    ensures { MatchOption result (Lacks (IsIdle (the_number (codes "idle") (table_view table.now))))
        (IsIdle (the_number (codes "idle") (table_view table.now))) }
{
    match number_at(table, "idle") {
        None => Some(8),
        Some(number) => match u8::try_from(number?) {
            Ok(idle) if idle <= 100 => Some(idle),
            _ => None,
        },
    }
}

/// How many octets receiving windows have at first.
pub fn window_in(table: &Table) -> Option<u32>
    ensures { MatchOption result (Lacks (IsWindow (the_number (codes "window") (table_view table.now))))
        (IsWindow (the_number (codes "window") (table_view table.now))) }
{
    match number_at(table, "window") {
        None => Some(65535),
        Some(number) => match u32::try_from(number?) {
            Ok(window) if 65535 <= window && window <= 1_048_576 => Some(window),
            _ => None,
        },
    }
}

/// The authority of a route's requests.
pub fn authority_in(table: &Table) -> Option<&str>
    ensures { MatchOption result (Lacks (IsAuthority (the_text (codes "authority") (table_view table.now))))
        (λ text. IsAuthority (the_text (codes "authority") (table_view table.now)) text.now) }
{
    match text_at(table, "authority") {
        None => Some(""),
        Some(text) => text,
    }
}

/// What the paths of a route's requests begin with.
pub fn prefix_in(table: &Table) -> Option<&str>
    ensures { MatchOption result (Lacks (IsPrefix (the_text (codes "prefix") (table_view table.now))))
        (λ text. IsPrefix (the_text (codes "prefix") (table_view table.now)) text.now) }
{
    match text_at(table, "prefix") {
        Some(Some(text)) if text.starts_with("/") => Some(text),
        _ => None,
    }
}

/// The address of a route's upstream.
pub fn upstream_in(table: &Table) -> Option<&str>
    ensures { MatchOption result (Lacks (IsUpstream (the_text (codes "upstream") (table_view table.now))))
        (λ text. IsUpstream (the_text (codes "upstream") (table_view table.now)) text.now) }
{
    match text_at(table, "upstream") {
        Some(Some(text)) if text.parse::<SocketAddr>().is_ok() => Some(text),
        _ => None,
    }
}

/// The tables of the routes, of which there aren't too many.
pub fn routes_in(table: &Table) -> Option<&[Value]>
    ensures { MatchOption result (Lacks (AreTables (array_at (codes "route") (table_view table.now)))) (λ values. (tables : List Members)
        × (map view values.now ≡ map as_data tables) × AreTables (array_at (codes "route") (table_view table.now)) tables) }
{
    let Some(value) = value_at(table, "route") else {
        return Some(&[]);
    };
    let values: &[Value] = value.as_array()?;
    if values.len() > MOST_ROUTES {
        return None;
    }
    if are_tables(values) {
        Some(values)
    } else {
        None
    }
}

/// Whether all values are tables.
fn are_tables(values: &[Value]) -> bool
    ensures { result ≡ list_all (λ value. is_some (as_table (view value))) values.now }
{
    values.iter().all(|value| value.is_table())
}
