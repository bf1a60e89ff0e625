//! The entries of a SETTINGS payload (RFC 9113, section 6.5.1).

ghost use Rattle.std.specs.Prelude.{◌≡◌, List, [], ◌∷◌, MatchOption};
ghost use Rattle.std.specs.List.{last_or};
ghost use Rattle.std.specs.Option.{option_map};
ghost use Rattle.model.specs.SettingValues.{Setting, settings_in, fault_of_setting, first_fault, values_of, last_value};
ghost use Rattle.model.specs.SettingValues.{smallest_value, initial_window_size, header_table_size};
ghost use Rattle.settings.specs.Accumulated.{smallest_with};
ghost use Rattle.settings.specs.Views.{setting_of, fault_of, IsFirstEntry};

use crate::SettingFault;
use protocol::limits::{GREATEST_FRAME_SIZE, GREATEST_WINDOW, LEAST_FRAME_SIZE};
use protocol::setting_ids::{ENABLE_PUSH, HEADER_TABLE_SIZE, INITIAL_WINDOW_SIZE, MAX_FRAME_SIZE};

/// An entry: a setting and its value.
#[derive(Clone, Copy, Debug, PartialEq, Eq)]
pub struct Entry {
    pub identifier: u16,
    pub value: u32,
}

/// The values that the entries of a payload name.
#[derive(Clone, Copy, Debug, PartialEq, Eq)]
pub struct Values {
    pub initial_window: Option<u32>,
    pub smallest_table: Option<u32>,
    pub last_table: Option<u32>,
}

/// The first entry of some octets, and the octets behind it.
fn split_entry(octets: &[u8]) -> Option<(Entry, &[u8])>
    ensures { MatchOption result (settings_in octets.now ≡ []) (λ found. IsFirstEntry octets.now found.1.now found.0) }
{
    let [high, low, a, b, c, d, rest @ ..] = octets else {
        return None;
    };
    let identifier = 256 * *high as u16 + *low as u16;
    let value = 16777216 * *a as u32 + 65536 * *b as u32 + 256 * *c as u32 + *d as u32;
    Some((Entry { identifier, value }, rest))
}

/// What is wrong with an entry.
fn fault_in(entry: Entry) -> Option<SettingFault>
    ensures { option_map fault_of result ≡ fault_of_setting (setting_of entry) }
{
    let Entry { identifier, value } = entry;
    if identifier == ENABLE_PUSH && value > 1 {
        return Some(SettingFault::Push);
    }
    if identifier == INITIAL_WINDOW_SIZE && value > GREATEST_WINDOW {
        return Some(SettingFault::Window);
    }
    if identifier == MAX_FRAME_SIZE
        && !(LEAST_FRAME_SIZE <= value && value <= GREATEST_FRAME_SIZE)
    {
        return Some(SettingFault::FrameSize);
    }
    None
}

/// What is wrong with the first entry that has a fault.
pub fn first_fault(payload: &[u8]) -> Option<SettingFault>
    ensures { option_map fault_of result ≡ first_fault (settings_in payload.now) }
{
    let mut left = payload;
    while let Some((entry, rest)) = split_entry(left) {
        let fault = fault_in(entry);
        if fault.is_some() {
            return fault;
        }
        left = rest;
    }
    None
}

/// The values that the entries name.
pub fn values_in(payload: &[u8]) -> Values
    ensures window { result.initial_window ≡ last_value initial_window_size (settings_in payload.now) }
    ensures smallest { result.smallest_table ≡ smallest_value header_table_size (settings_in payload.now) }
    ensures last { result.last_table ≡ last_value header_table_size (settings_in payload.now) }
{
    let mut values = Values {
        initial_window: None,
        smallest_table: None,
        last_table: None,
    };
    let mut left = payload;
    while let Some((entry, rest)) = split_entry(left) {
        values = with_entry(values, entry);
        left = rest;
    }
    values
}

/// The values behind one entry more.
fn with_entry(values: Values, entry: Entry) -> Values
    ensures window { (later : List Setting) → last_or result.initial_window (values_of initial_window_size later)
        ≡ last_or values.initial_window (values_of initial_window_size (setting_of entry ∷ later)) }
    ensures smallest { (later : List Setting) → smallest_with result.smallest_table (values_of header_table_size later)
        ≡ smallest_with values.smallest_table (values_of header_table_size (setting_of entry ∷ later)) }
    ensures last { (later : List Setting) → last_or result.last_table (values_of header_table_size later)
        ≡ last_or values.last_table (values_of header_table_size (setting_of entry ∷ later)) }
{
    let value = entry.value;
    match entry.identifier {
        INITIAL_WINDOW_SIZE => Values {
            initial_window: Some(value),
            ..values
        },
        HEADER_TABLE_SIZE => Values {
            smallest_table: Some(
                values
                    .smallest_table
                    .map_or(value, |smallest| smallest.min(value)),
            ),
            last_table: Some(value),
            ..values
        },
        _ => values,
    }
}
