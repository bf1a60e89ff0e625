//! Lines of a script, and the words in them.

ghost use Rattle.std.specs.Prelude.{◌≡◌, ◌≢◌, [], All, MatchOption, IfOk, IfErr};
ghost use Rattle.replay.specs.Scripts.{IsHex, IsNumber, AreTwoNumbers, Says};
ghost use Rattle.replay.specs.Faults.{Refuses, RefusesHex, RefusesNumberAndHex, IsNoNumber, AreNotTwoNumbers, IsClient, IsUp, IsSeparated, IsFirstLine};
ghost use Rattle.gateway.specs.Views.{event_of};

use gateway::Event;
use hex::FromHexError;
use std::alloc::Global;

/// Why a line gives no event.
#[derive(Clone, Copy)]
pub enum LineFault {
    /// It isn't a line of a script.
    NotALine,
    /// No memory was left.
    Memory,
}

/// The first line of a text, without its end, and what is behind it.
pub fn first_line(text: &[u8]) -> Option<(&[u8], &[u8])>
    ensures { MatchOption result (text.now ≡ []) (λ parts. IsFirstLine text.now parts.0.now parts.1.now) }
{
    if text.is_empty() {
        return None;
    }
    match separate(text, b'\n') {
        Some(parts) => Some(parts),
        None => Some((text, &[])),
    }
}

/// The event that a line says.
pub fn read_line(alloc: Global, line: &[u8]) -> Result<Event, LineFault>
    ensures ok { IfOk result (λ event. Says line.now (event_of event)) }
    ensures err { IfErr result (λ fault. Refuses line.now fault) }
{
    match line {
        [b'D'] => Ok(Event::Drain),
        [b'C', b' ', word @ ..] => read_client(alloc, word),
        [b'C', b'E'] => Ok(Event::ClientEnd),
        [b'C', b'T', b' ', word @ ..] => match read_number(word) {
            Some(count) => Ok(Event::ClientTook(u64::from(count))),
            None => Err(LineFault::NotALine),
        },
        [b'U', b' ', words @ ..] => read_up(alloc, words),
        [b'U', b'E', b' ', word @ ..] => match read_number(word) {
            Some(k) => Ok(Event::UpEnd(k)),
            None => Err(LineFault::NotALine),
        },
        [b'U', b'F', b' ', word @ ..] => match read_number(word) {
            Some(k) => Ok(Event::UpFailed(k)),
            None => Err(LineFault::NotALine),
        },
        [b'U', b'T', b' ', words @ ..] => match read_two_numbers(words) {
            Some((k, count)) => Ok(Event::UpTook(k, u64::from(count))),
            None => Err(LineFault::NotALine),
        },
        _ => Err(LineFault::NotALine),
    }
}

/// Octets of the client, from a word in hex.
fn read_client(alloc: Global, word: &[u8]) -> Result<Event, LineFault>
    ensures ok { IfOk result (λ event. IsClient word.now (event_of event)) }
    ensures err { IfErr result (λ fault. RefusesHex word.now fault) }
{
    let piece = read_octets(alloc, word)?;
    Ok(Event::Client(piece))
}

/// Octets of an upstream, from its number and, behind a space, a word in hex.
fn read_up(alloc: Global, words: &[u8]) -> Result<Event, LineFault>
    ensures ok { IfOk result (λ event. IsUp words.now (event_of event)) }
    ensures err { IfErr result (λ fault. RefusesNumberAndHex words.now fault) }
{
    let Some((first, second)) = separate(words, b' ') else {
        return Err(LineFault::NotALine);
    };
    let Some(k) = read_number(first) else {
        return Err(LineFault::NotALine);
    };
    match read_octets(alloc, second) {
        Ok(piece) => Ok(Event::Up(k, piece)),
        Err(fault) => Err(fault),
    }
}

/// Two numbers, with a space between them.
fn read_two_numbers(words: &[u8]) -> Option<(u32, u32)>
    ensures { MatchOption result (AreNotTwoNumbers words.now) (λ pair. AreTwoNumbers words.now pair.0 pair.1) }
{
    let (first, second) = separate(words, b' ')?;
    let first = read_number(first)?;
    let second = read_number(second)?;
    Some((first, second))
}

/// What stands before and behind the first such octet.
fn separate(text: &[u8], octet: u8) -> Option<(&[u8], &[u8])>
    ensures { MatchOption result (All (λ other. other ≢ octet) text.now) (λ parts. IsSeparated octet text.now parts.0.now parts.1.now) }
{
    match text.iter().position(|other| *other == octet) {
        Some(end) => Some((&text[..end], &text[end + 1..])),
        None => None,
    }
}

/// The octets of a word in hex.
fn read_octets(alloc: Global, word: &[u8]) -> Result<Vec<u8>, LineFault>
    ensures ok { IfOk result (λ octets. IsHex word.now octets.items) }
    ensures err { IfErr result (λ fault. RefusesHex word.now fault) }
{
    match hex::decode(alloc, word) {
        Ok(octets) => Ok(octets),
        Err(FromHexError::OutOfMemory) => Err(LineFault::Memory),
        Err(_) => Err(LineFault::NotALine),
    }
}

/// The number of a word, of one to nine decimal digits.
fn read_number(word: &[u8]) -> Option<u32>
    ensures { MatchOption result (IsNoNumber word.now) (λ number. IsNumber word.now number) }
{
    if word.is_empty() || word.len() > 9 {
        return None;
    }
    let mut number: u32 = 0;
    for digit in word {
        if !digit.is_ascii_digit() {
            return None;
        }
        number = number * 10 + u32::from(*digit - b'0');
    }
    Some(number)
}
