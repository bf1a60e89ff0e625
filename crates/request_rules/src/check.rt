//! The first rule that is broken.
//!
//! [`are_trailers`] is a library call, on no path of the gateway: trailers that come are checked by
//! [`check_trailers`].

ghost use Rattle.std.specs.Prelude.{◌≡◌, true, false, [], MatchBool, MatchOption, take, IfOk, OnOk, IfErr, OnErr};
ghost use Rattle.model.specs.Http2.{LengthFieldHolds, HasLength, declared_length, is_connect, WellFormedHead, WellFormedTrailers, passed_trailers};
ghost use Rattle.model.specs.Malformed.{carried_by, is_malformed_block, are_trailers};
ghost use Rattle.request_rules.specs.Heads.{parts_of, IsRequestHead};
ghost use Rattle.request_rules.specs.Rules.{IsFirstBroken, IsFirstBrokenByTrailers, Keeps, in_order};

use crate::head::RequestHead;
use crate::rule::Rule;
use crate::{rules, trailers};
use field_rules::{fields, number};
use hpack_table::Field;
use std::alloc::Global;

/// The length that a head declares, if any.
pub(crate) fn declared_length(head: &[Field]) -> Option<u64>
    requires { LengthFieldHolds head.now }
    ensures { result ≡ declared_length head.now }
{
    if fields::count(head, b"content-length") == 0 {
        return None;
    }
    Some(number(fields::first_value(head, b"content-length")))
}

/// Whether a head that ends its stream declares no octets.
fn length_holds(head: &[Field], ended: bool) -> bool
    requires { LengthFieldHolds head.now }
    ensures { MatchBool result (ended ≡ true → HasLength (declared_length head.now) []) ((ended ≡ true → HasLength (declared_length head.now) []) → ⊥) }
{
    if !ended {
        return true;
    }
    matches!(declared_length(head), None | Some(0))
}

/// The first rule that a head breaks. Ordinary fields at its end break none, so that mostly the
/// rules are asked of a short front alone.
fn first_broken(head: &[Field], ended: bool) -> Option<Rule>
    ensures { MatchOption result (Keeps (take 11 in_order) head.now ended) (λ rule. IsFirstBroken rule head.now ended) }
{
    match first_in_order(fields::before_ordinary(head), ended) {
        None => None,
        Some(_) => first_in_order(head, ended),
    }
}

/// The first rule that a head breaks, by asking one rule after another.
fn first_in_order(head: &[Field], ended: bool) -> Option<Rule>
    ensures { MatchOption result (Keeps (take 11 in_order) head.now ended) (λ rule. IsFirstBroken rule head.now ended) }
{
    if !rules::pseudo_fields_hold(head) {
        return Some(Rule::PseudoField);
    }
    if !rules::names_hold(head) {
        return Some(Rule::Name);
    }
    if !rules::values_hold(head) {
        return Some(Rule::Value);
    }
    if !rules::has_no_connection_field(head) {
        return Some(Rule::ConnectionField);
    }
    if !rules::te_holds(head) {
        return Some(Rule::Te);
    }
    if !rules::method_holds(head) {
        return Some(Rule::Method);
    }
    if !rules::scheme_holds(head) {
        return Some(Rule::Scheme);
    }
    if !rules::path_holds(head) {
        return Some(Rule::Path);
    }
    if !rules::authority_holds(head) {
        return Some(Rule::Authority);
    }
    if !rules::length_field_holds(head) {
        return Some(Rule::ContentLength);
    }
    if !length_holds(head, ended) {
        return Some(Rule::Length);
    }
    None
}

/// Checks the head of a request (RFC 9113, sections 8.2 to 8.5) and answers its parts; `ended`
/// where the head ends the stream. An error is the first rule, in the order of [`Rule`], that the
/// head breaks; `Memory` comes where it breaks none.
pub fn check_head(alloc: Global, head: &[Field], ended: bool) -> Result<RequestHead, Rule>
    ensures ok { IfOk result (λ parts. parts ≡ parts_of head.now) }
    ensures request { IfOk result (λ parts. is_connect head.now ≡ false → IsRequestHead parts) }
    ensures kept { OnOk result (WellFormedHead head.now × (ended ≡ true → HasLength (declared_length head.now) [])) }
    ensures refused { IfErr result (λ rule. IsFirstBroken rule head.now ended) }

    // The same by the test of a stream's first block.
    ensures passes { OnOk result (is_malformed_block (carried_by [] false) head.now ended ≡ false) }
    ensures malformed { IfErr result (λ rule. (rule ≡ Rule.Memory → ⊥) → is_malformed_block (carried_by [] false) head.now ended ≡ true) }
    ensures memory { IfErr result (λ rule. rule ≡ Rule.Memory → is_malformed_block (carried_by [] false) head.now ended ≡ false) }
{
    if let Some(rule) = first_broken(head, ended) {
        return Err(rule);
    }
    match RequestHead::of(alloc, head) {
        Ok(parts) => Ok(parts),
        Err(_) => Err(Rule::Memory),
    }
}

/// Checks the trailers of a request (RFC 9113, section 8.1), and answers those that are passed on.
/// An error is the first rule, in the order of [`Rule`], that they break: one of pseudo-fields,
/// names, values and fields of the connection; `Memory` comes where they break none.
pub fn check_trailers(alloc: Global, trailers: &[Field]) -> Result<Vec<Field>, Rule>
    ensures ok { IfOk result (λ fields. fields.items ≡ passed_trailers trailers.now) }
    ensures kept { OnOk result (WellFormedTrailers trailers.now) }
    ensures refused { IfErr result (λ rule. IsFirstBrokenByTrailers rule trailers.now) }

    // The same by the test of trailers.
    ensures passes { OnOk result (are_trailers trailers.now ≡ true) }
    ensures malformed { IfErr result (λ rule. (rule ≡ Rule.Memory → ⊥) → are_trailers trailers.now ≡ false) }
    ensures memory { IfErr result (λ rule. rule ≡ Rule.Memory → are_trailers trailers.now ≡ true) }
{
    if let Some(broken) = first_broken_by_trailers(trailers) {
        return Err(broken);
    }
    match trailers::passed(alloc, trailers) {
        Ok(passed) => Ok(passed),
        Err(_) => Err(Rule::Memory),
    }
}

/// Whether trailers keep the rules of a request's (RFC 9113, section 8.1).
pub fn are_trailers(trailers: &[Field]) -> bool
    ensures { result ≡ are_trailers trailers.now }
{
    match first_broken_by_trailers(trailers) {
        None => true,
        Some(_) => false,
    }
}

/// The first rule that trailers break.
fn first_broken_by_trailers(trailers: &[Field]) -> Option<Rule>
    ensures { MatchOption result (WellFormedTrailers trailers.now) (λ rule. IsFirstBrokenByTrailers rule trailers.now × (rule ≡ Rule.Memory → ⊥)) }
{
    if !rules::has_no_pseudo_field(trailers) {
        return Some(Rule::PseudoField);
    }
    if !rules::names_hold(trailers) {
        return Some(Rule::Name);
    }
    if !rules::values_hold(trailers) {
        return Some(Rule::Value);
    }
    if !rules::has_no_connection_field(trailers) {
        return Some(Rule::ConnectionField);
    }
    None
}
