//! The length of a body against the declared one.
//!
//! [`BodyCount`], with [`BodyCount::may_come`] and [`BodyCount::may_end`], is a library type, on no
//! path of the gateway: bodies are counted by `streams`, by the same definitions.

ghost use Rattle.std.specs.Prelude.{◌≡◌, [], OnOk, IfErr};
ghost use Rattle.model.specs.Http2.{HasLength};
ghost use Rattle.model.specs.Malformed.{is_within, has_length};
ghost use Rattle.request_rules.specs.Counts.{MayCome, left_after};

use crate::rule::Rule;
use std::marker::Model;

/// How many octets of a body are still to come, where its head declares a length (RFC 9113, section 8.1.1).
#[derive(Drop)]
pub struct BodyCount {
    left: Option<u64>,
}

impl Model for BodyCount {
    ghost use Rattle.std.specs.Prelude.{ℕ, Option};

    ghost Value = { Option ℕ };

    ghost view = { λ count. count.left };
}

impl BodyCount {
    /// The count of a body of which nothing has come, by the length in octets that its head declares.
    pub fn new(declared: Option<u64>) -> Self
        ensures { result ≡ declared }
    {
        BodyCount { left: declared }
    }

    /// Whether so many octets may come. Nothing is counted.
    pub fn may_come(&self, octets: u64) -> bool
        ensures { result ≡ is_within self.now octets }
    {
        match self.left {
            None => true,
            Some(left) => octets <= left,
        }
    }

    /// Whether the body may end here, since no octets are to come that were declared.
    pub fn may_end(&self) -> bool
        ensures { result ≡ has_length self.now 0 }
    {
        matches!(self.left, None | Some(0))
    }

    /// Counts octets that came. The error `Length` comes just where they are more than may come; the count stays then.
    pub fn add(&mut self, octets: u64) -> Result<(), Rule>
        ensures ok { OnOk result (MayCome self.old octets × (self.new ≡ left_after self.old octets)) }
        ensures refused { IfErr result (λ rule. (rule ≡ Rule.Length) × (MayCome self.old octets → ⊥) × (self.new ≡ self.old)) }
    {
        let Some(left) = self.left else {
            return Ok(());
        };
        if octets > left {
            return Err(Rule::Length);
        }
        self.left = Some(left - octets);
        Ok(())
    }

    /// Whether the body may end here. The error `Length` comes just where octets are still to come.
    pub fn finish(&self) -> Result<(), Rule>
        ensures ok { OnOk result (HasLength self.now []) }
        ensures refused { IfErr result (λ rule. (rule ≡ Rule.Length) × (HasLength self.now [] → ⊥)) }
    {
        match self.left {
            None | Some(0) => Ok(()),
            Some(_) => Err(Rule::Length),
        }
    }
}
