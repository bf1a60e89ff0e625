//! How octets are written in a row: in hex, with spaces anywhere; as text in single quotes, with
//! `\r` and `\n` for CR and LF; by a name in braces; and repeated, as `{61 x 1000}`, also within
//! braces.

use std::alloc::{AllocError, Global};
use std::mem;

/// What a character stands in.
#[derive(Clone, Copy)]
enum Place {
    Hex,
    Text,
    Escape,
}

/// The octets that a client's connection begins with.
const PREFACE: &str = "505249202a20485454502f322e300d0a0d0a534d0d0a0d0a";

/// The gateway's SETTINGS: at most 100 streams, and header lists of at most 16,384 octets.
const OWN_SETTINGS: &str = "00000c040000000000000300000064000600004000";

/// The rest of a header block behind its method: http, `/` and, as a literal that is inserted, `www.example.com`.
const REST_OF_BLOCK: &str = "8684410f7777772e6578616d706c652e636f6d";

/// The request upstream of GET: its line, `host`, `via` and `connection`.
const GET: &str =
    "GET / HTTP/1.1\r\nhost: www.example.com\r\nvia: 2.0 h2gw\r\nconnection: close\r\n\r\n";

/// The same on a connection that is kept.
const GET_KEPT: &str = "GET / HTTP/1.1\r\nhost: www.example.com\r\nvia: 2.0 h2gw\r\n\r\n";

/// The front of the request upstream of POST, up to the line that frames its body.
const POST: &str = "POST / HTTP/1.1\r\nhost: www.example.com\r\nvia: 2.0 h2gw\r\n";

/// What follows that line.
const CLOSE: &str = "\r\nconnection: close\r\n\r\n";

/// Adds text in hex.
fn push_text(text: &str, hex: &mut String) -> Result<(), AllocError> {
    for octet in text.bytes() {
        write!(hex, "{octet:02x}")?;
    }
    Ok(())
}

/// Adds hex so many times. Without a number it gives no hex, so that its script is no script.
fn push_repeated(octets: &str, count: &str, hex: &mut String) -> Result<(), AllocError> {
    let Ok(count) = count.parse::<u32>() else {
        return hex.push_str("()");
    };
    for _ in 0..count {
        hex.push_str(octets)?;
    }
    Ok(())
}

/// Adds the octets that words in braces stand for, without their spaces; a name without a meaning gives no hex.
fn push_meaning(words: &str, hex: &mut String) -> Result<(), AllocError> {
    if let Some((octets, count)) = words.split_once('x') {
        return push_repeated(octets, count, hex);
    }
    match words {
        // The client's preface.
        "P" => hex.push_str(PREFACE),
        // SETTINGS without entries, and with ACK.
        "S" => hex.push_str("000000040000000000"),
        "K" => hex.push_str("000000040100000000"),
        // The gateway's SETTINGS.
        "G" => hex.push_str(OWN_SETTINGS),
        // The 20 octets of a header block of GET, and of POST.
        "A" => write!(hex, "82{REST_OF_BLOCK}"),
        "B" => write!(hex, "83{REST_OF_BLOCK}"),
        // Texts of requests.
        "GET" => push_text(GET, hex),
        "GETKEPT" => push_text(GET_KEPT, hex),
        "POST" => push_text(POST, hex),
        "CLOSE" => push_text(CLOSE, hex),
        other => write!(hex, "({other})"),
    }
}

/// What is written of braces, and of what stands around them.
#[derive(Drop)]
struct Written {
    around: Vec<String>,
    hex: String,
}

impl Written {
    /// Braces begin.
    fn open(&mut self, alloc: Global) -> Result<(), AllocError> {
        let hex = mem::replace(&mut self.hex, String::new(alloc));
        self.around.push(hex)?;
        Ok(())
    }

    /// Braces end; where none began, this gives no hex.
    fn close(&mut self) -> Result<(), AllocError> {
        let Some(around) = self.around.pop() else {
            return self.hex.push_str("()");
        };
        let words = mem::replace(&mut self.hex, around);
        push_meaning(&words, &mut self.hex)
    }

    /// Adds what a character in hex or in braces stands for, and says what the next one stands in.
    fn push(&mut self, alloc: Global, c: char) -> Result<Place, AllocError> {
        match c {
            ' ' => {}
            '{' => self.open(alloc)?,
            '}' => self.close()?,
            '\'' => return Ok(Place::Text),
            digit => self.hex.push(digit)?,
        }
        Ok(Place::Hex)
    }

    /// Adds what a character of a text stands for, and says what the next one stands in.
    fn push_letter(&mut self, c: char) -> Result<Place, AllocError> {
        match c {
            '\'' => return Ok(Place::Hex),
            '\\' => return Ok(Place::Escape),
            letter => write!(self.hex, "{:02x}", letter as u32)?,
        }
        Ok(Place::Text)
    }

    /// Adds the end of a line that stands in a text.
    fn push_escaped(&mut self, c: char) -> Result<Place, AllocError> {
        self.hex.push_str(if c == 'r' { "0d" } else { "0a" })?;
        Ok(Place::Text)
    }
}

/// Adds octets in hex, as they are written in a row.
pub(crate) fn push_octets(
    alloc: Global,
    octets: &str,
    text: &mut String,
) -> Result<(), AllocError> {
    let mut written = Written {
        around: Vec::new(alloc),
        hex: String::new(alloc),
    };
    let mut place = Place::Hex;
    for c in octets.chars() {
        place = match place {
            Place::Hex => written.push(alloc, c)?,
            Place::Text => written.push_letter(c)?,
            Place::Escape => written.push_escaped(c)?,
        };
    }
    if !written.around.is_empty() {
        text.push_str("()")?;
    }
    text.push_str(&written.hex)
}
