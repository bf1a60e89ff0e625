//! Windows of flow control (RFC 9113, sections 5.2 and 6.9), each kept as one number.
#![tactic(auto)]

ghost use Rattle.std.specs.Prelude.{◌≡◌, ◌≤◌, pos, ◌+ℤ◌, ◌-ℤ◌, ◌≤ℤ◌, IfOk, OnOk, OnErr};
ghost use Rattle.model.specs.Windows.{IsPast, IsAboveLeast, IsSize};
ghost use Rattle.model.specs.Limits.{greatest_window};

pub mod laws;

use protocol::limits::GREATEST_WINDOW;
use std::marker::Model;

/// The greatest size that a window may have (RFC 9113, section 6.9.1).
const GREATEST: i64 = GREATEST_WINDOW as i64;

/// A window would pass 2,147,483,647, which is an error of its stream or of the connection (RFC
/// 9113, section 6.9.1), or fall below -2,147,483,647, which no frame of a peer brings about.
#[derive(Clone, Copy, Debug, PartialEq, Eq)]
pub struct Overflow;

/// A window of flow control, seen as a number: how many octets of DATA may still be sent, or may
/// still come. It is below zero where its first size was lowered under what was already sent (RFC
/// 9113, section 6.9.2).
#[derive(Debug, Drop)]
pub struct Window {
    size: i64,
}

impl Model for Window {
    ghost use Rattle.std.specs.Prelude.{ℤ};
    ghost use Rattle.model.specs.Windows.{IsSize};

    ghost Value = { ℤ };

    ghost view = { λ window. window.size };

    ghost invariant = { λ window. IsSize window.size };
}

impl Window {
    /// A window with this first size in octets, of at most 2,147,483,647 (RFC 9113, section 6.9.2).
    pub fn new(first: u32) -> Self
        requires { first ≤ greatest_window }
        ensures { result ≡ pos first }
    {
        Window {
            size: i64::from(first),
        }
    }

    /// Takes the octets of a DATA frame from the window, of which there are at most as many as it
    /// has (RFC 9113, section 6.9.1).
    pub fn take(&mut self, octets: u32)
        requires { pos octets ≤ℤ self.old }
        ensures { self.new ≡ self.old -ℤ pos octets }
    {
        self.size -= i64::from(octets);
    }

    /// Takes the octets of a DATA frame that went out from a window that is kept without its first
    /// size, so that it may fall below zero (RFC 9113, sections 6.9.1 and 6.9.2), yet to
    /// -2,147,483,647 at the lowest.
    pub fn spend(&mut self, octets: u32)
        requires { IsAboveLeast (self.old -ℤ pos octets) }
        ensures { self.new ≡ self.old -ℤ pos octets }
    {
        let count = i64::from(octets);
        self.size -= count;
    }

    /// Adds the increment of a WINDOW_UPDATE, in octets (RFC 9113, section 6.9.1). `Overflow` comes
    /// just where the window would pass 2,147,483,647, and leaves it as it was.
    pub fn grant(&mut self, increment: u32) -> Result<(), Overflow>
        ensures ok { OnOk result (self.new ≡ self.old +ℤ pos increment) }
        ensures in_range { OnOk result (IsSize self.new) }
        ensures refused { OnErr result (IsPast (self.old +ℤ pos increment)) }
        ensures unchanged { OnErr result (self.new ≡ self.old) }
    {
        self.size = sum_of(self.size, i64::from(increment))?;
        Ok(())
    }

    /// Adds the difference that a changed setting makes, in octets, perhaps one below zero (RFC
    /// 9113, section 6.9.2). `Overflow` comes just where the window would pass 2,147,483,647 or
    /// fall below -2,147,483,647, and leaves it as it was.
    pub fn shift(&mut self, difference: i64) -> Result<(), Overflow>
        ensures ok { OnOk result (self.new ≡ self.old +ℤ difference) }
        ensures in_range { OnOk result (IsSize self.new) }
        ensures refused { OnErr result (IsSize (self.old +ℤ difference) → ⊥) }
        ensures unchanged { OnErr result (self.new ≡ self.old) }
    {
        self.size = sum_of(self.size, difference)?;
        Ok(())
    }

    /// How many octets the window has left, or how far it is below zero.
    pub fn left(&self) -> i64
        ensures is { result ≡ self.now }
        ensures in_range { IsSize self.now }
    {
        let Window { size } = self;
        *size
    }
}

/// The size of a window with so many octets more, where that is a window's.
fn sum_of(size: i64, difference: i64) -> Result<i64, Overflow>
    requires { IsSize size }
    ensures ok { IfOk result (λ sum. (sum ≡ size +ℤ difference) × IsSize sum) }
    ensures refused { OnErr result (IsSize (size +ℤ difference) → ⊥) }
    ensures past { OnErr result (pos 0 ≤ℤ difference → IsPast (size +ℤ difference)) }
{
    if difference > GREATEST - size {
        return Err(Overflow);
    }
    if difference < -GREATEST - size {
        return Err(Overflow);
    }
    Ok(size + difference)
}
