//! The settings that the peer sends (RFC 9113, section 6.5).
//!
//! [`Settings::apply`] is a library call, on no path of the gateway: that calls
//! [`Settings::check`], and then [`Settings::accept`].
#![tactic(auto)]

ghost use Rattle.std.specs.Prelude.{◌≡◌, ◌≤◌, Some, None, IfOk, IfErr, OnOk, OnErr};
ghost use Rattle.model.specs.Windows.{IsSize, size_difference};
ghost use Rattle.model.specs.Limits.{greatest_window};
ghost use Rattle.model.specs.SettingValues.{settings_in, settings_fault};

mod entries;
pub mod laws;

use crate::entries::{first_fault, values_in};
use protocol::lengths;
use protocol::limits::FIRST_WINDOW;
use std::marker::Model;

/// What is wrong with a SETTINGS payload (RFC 9113, section 6.5).
#[derive(Clone, Copy, Debug, PartialEq, Eq)]
pub enum SettingFault {
    /// Its length isn't a multiple of six octets.
    Size,
    /// ENABLE_PUSH is neither 0 nor 1.
    Push,
    /// INITIAL_WINDOW_SIZE is past 2,147,483,647.
    Window,
    /// MAX_FRAME_SIZE isn't from 16,384 to 16,777,215.
    FrameSize,
}

/// What a SETTINGS frame changes.
#[derive(Clone, Copy, Debug, PartialEq, Eq)]
pub struct Change {
    /// The first size of windows behind the frame less that before it, in octets.
    pub difference: i64,
    /// The smallest HEADER_TABLE_SIZE that the frame names, in octets.
    pub smallest: Option<u32>,
    /// The last HEADER_TABLE_SIZE that it names, in octets.
    pub last: Option<u32>,
}

/// What a SETTINGS frame leaves if it is accepted.
#[derive(Clone, Copy, Debug, PartialEq, Eq)]
pub struct Checked {
    /// The first size of windows behind the frame, in octets, of at most 2,147,483,647.
    pub initial_window: u32,
    /// What the frame changes.
    pub change: Change,
}

/// The peer's settings, seen as the first size of windows, which alone has to be kept.
#[derive(Debug, Drop)]
pub struct Settings {
    initial_window: u32,
}

impl Model for Settings {
    ghost use Rattle.std.specs.Prelude.{ℕ, ◌≤◌};
    ghost use Rattle.model.specs.Limits.{greatest_window};

    ghost Value = { ℕ };

    ghost view = { λ settings. settings.initial_window };

    ghost invariant = { λ settings. settings.initial_window ≤ greatest_window };
}

impl Default for Settings {
    ghost is_default = { λ settings. settings ≡ 65535 };

    /// The settings before any frame: windows begin with 65,535 octets (RFC 9113, section 6.5.2).
    fn default() -> Self {
        Settings {
            initial_window: FIRST_WINDOW,
        }
    }
}

impl Settings {
    ghost use Rattle.settings.specs.Views.{fault_of, IsChange};

    /// Judges the entries of a SETTINGS payload in order, and says what they would change, while
    /// nothing changes yet (RFC 9113, sections 6.5.2 and 6.5.3). Identifiers that aren't known are
    /// ignored. So a caller can see whether the windows of its streams allow the difference, before
    /// it calls `accept`.
    ///
    /// `Size` comes just where the length isn't a multiple of six, whatever the entries say; else
    /// the first entry with a fault decides.
    pub fn check(&self, payload: &[u8]) -> Result<Checked, SettingFault>
        ensures ok { IfOk result (λ checked. IsChange self.now checked.initial_window (settings_in payload.now) checked.change) }
        ensures faultless { OnOk result (settings_fault payload.now ≡ None) }
        ensures in_range { IfOk result (λ checked. checked.initial_window ≤ greatest_window) }

        // So a window, which is such a size too, can be shifted by it without a sum that wraps.
        ensures small { IfOk result (λ checked. IsSize checked.change.difference) }
        ensures refused { IfErr result (λ fault. settings_fault payload.now ≡ Some (fault_of fault)) }
    {
        if payload.len() % lengths::SETTING != 0 {
            return Err(SettingFault::Size);
        }
        if let Some(fault) = first_fault(payload) {
            return Err(fault);
        }
        let values = values_in(payload);
        let before = self.initial_window;
        let initial_window = values.initial_window.unwrap_or(before);
        let change = Change {
            difference: difference_of(before, initial_window),
            smallest: values.smallest_table,
            last: values.last_table,
        };
        Ok(Checked {
            initial_window,
            change,
        })
    }

    /// Takes over what `check` answered: windows begin with its first size from now on (RFC 9113, section 6.5.3).
    pub fn accept(&mut self, checked: Checked)
        requires { checked.initial_window ≤ greatest_window }
        ensures { self.new ≡ checked.initial_window }
    {
        self.initial_window = checked.initial_window;
    }

    /// Applies the entries of a SETTINGS payload in order, and says what they change, as `check`
    /// and `accept` do one after the other (RFC 9113, sections 6.5.2 and 6.5.3).
    ///
    /// `Size` comes just where the length isn't a multiple of six, whatever the entries say; else
    /// the first entry with a fault decides. A refusal changes nothing.
    pub fn apply(&mut self, payload: &[u8]) -> Result<Change, SettingFault>
        ensures ok { IfOk result (λ change. IsChange self.old self.new (settings_in payload.now) change) }
        ensures faultless { OnOk result (settings_fault payload.now ≡ None) }
        ensures small { IfOk result (λ change. IsSize change.difference) }
        ensures refused { IfErr result (λ fault. settings_fault payload.now ≡ Some (fault_of fault)) }
        ensures unchanged { OnErr result (self.new ≡ self.old) }
    {
        let checked = self.check(payload)?;
        self.accept(checked);
        Ok(checked.change)
    }

    /// The first size of the windows of streams as it is now, in octets (RFC 9113, section 6.5.2).
    pub fn initial_window(&self) -> u32
        ensures is { result ≡ self.now }
        ensures in_range { self.now ≤ greatest_window }
    {
        let Settings { initial_window } = self;
        *initial_window
    }
}

/// How much more windows begin with behind a change, in octets, perhaps below zero.
fn difference_of(before: u32, after: u32) -> i64
    requires before { before ≤ greatest_window }
    requires after { after ≤ greatest_window }
    ensures is { result ≡ size_difference before after }
    ensures small { IsSize result }
{
    i64::from(after) - i64::from(before)
}
