//! The first line of a chunk, octet by octet (RFC 9112, section 7.1).

ghost use Rattle.std.specs.Prelude.{◌≡◌, ◌^◌, ◌<◌, true, false, MatchOption};
ghost use Rattle.std.specs.Char.{digit_value};
ghost use Rattle.model.specs.Octets.{is_hex_digit};
ghost use Rattle.response_texts.specs.ChunkLines.{AreDigits, BehindSize, InExtension, BehindReturn, IsLinePart, IsInRange, IsStep, BreaksLine, EndsSize};

/// The most digits of a size (this project's profile).
const MOST_DIGITS: u8 = 8;

/// The most spaces and tabs behind a size, and the most octets of an extension (this project's profile).
const MOST_OCTETS: u16 = 256;

/// How far a line was read.
#[derive(Clone, Copy, Drop)]
pub enum LinePlace {
    /// In the size: behind so many digits, which write this number.
    Size(u8, u32),
    /// Behind a size, and behind so many spaces and tabs, one or more.
    Spaces(u32, u16),
    /// Behind a size and a semicolon, and behind so many octets of an extension.
    Extension(u32, u16),
    /// Behind a size and the carriage return.
    Return(u32),
}

/// Where a line begins.
pub const LINE_START: LinePlace = LinePlace::Size(0, 0);

/// What an octet makes of a line.
#[derive(Clone, Copy, Drop)]
pub enum LineStep {
    /// The line goes on.
    On(LinePlace),
    /// The line is whole, with this size.
    Whole(u32),
}

/// Takes the next octet of a line; none where no line begins so.
pub fn line_step(place: LinePlace, octet: u8) -> Option<LineStep>
    requires { IsInRange place }
    ensures { MatchOption result (BreaksLine (IsLinePart place) octet) (IsStep (IsLinePart place) octet) }
{
    match place {
        LinePlace::Size(digits, size) => size_step(digits, size, octet),
        LinePlace::Spaces(size, spaces) => space_step(size, spaces, octet),
        LinePlace::Extension(size, octets) => extension_step(size, octets, octet),
        LinePlace::Return(size) => return_step(size, octet),
    }
}

/// The value of a digit in base sixteen.
fn hex_value(octet: u8) -> Option<u8>
    ensures { MatchOption result (is_hex_digit octet ≡ false) (λ value. (is_hex_digit octet ≡ true) × (value ≡ digit_value octet) × (value < 16)) }
{
    match octet {
        b'0'..=b'9' => Some(octet - b'0'),
        b'A'..=b'F' => Some(octet - b'A' + 10),
        b'a'..=b'f' => Some(octet - b'a' + 10),
        _ => None,
    }
}

/// Takes an octet behind so many digits, which write this number.
fn size_step(digits: u8, size: u32, octet: u8) -> Option<LineStep>
    requires { size < 16 ^ digits }
    ensures { MatchOption result (BreaksLine (AreDigits digits size) octet) (IsStep (AreDigits digits size) octet) }
{
    match hex_value(octet) {
        Some(value) => {
            if digits >= MOST_DIGITS {
                return None;
            }
            let more = 16 * size + value as u32;
            Some(LineStep::On(LinePlace::Size(digits + 1, more)))
        }
        None => {
            if digits == 0 {
                return None;
            }
            space_step(size, 0, octet)
        }
    }
}

/// Takes an octet behind a size and so many spaces and tabs.
fn space_step(size: u32, spaces: u16, octet: u8) -> Option<LineStep>
    requires { EndsSize spaces octet }
    ensures { MatchOption result (BreaksLine (BehindSize size spaces) octet) (IsStep (BehindSize size spaces) octet) }
{
    match octet {
        b' ' | b'\t' => {
            if spaces >= MOST_OCTETS {
                return None;
            }
            Some(LineStep::On(LinePlace::Spaces(size, spaces + 1)))
        }
        b';' => Some(LineStep::On(LinePlace::Extension(size, 0))),
        b'\r' => Some(LineStep::On(LinePlace::Return(size))),
        _ => None,
    }
}

/// Takes an octet behind a semicolon and so many octets of an extension.
fn extension_step(size: u32, octets: u16, octet: u8) -> Option<LineStep>
    ensures { MatchOption result (BreaksLine (InExtension size octets) octet) (IsStep (InExtension size octets) octet) }
{
    match octet {
        b'\r' => Some(LineStep::On(LinePlace::Return(size))),
        b'\n' | 0 => None,
        _ => {
            if octets >= MOST_OCTETS {
                return None;
            }
            Some(LineStep::On(LinePlace::Extension(size, octets + 1)))
        }
    }
}

/// Takes an octet behind a carriage return.
fn return_step(size: u32, octet: u8) -> Option<LineStep>
    ensures { MatchOption result (BreaksLine (BehindReturn size) octet) (IsStep (BehindReturn size) octet) }
{
    if octet != b'\n' {
        return None;
    }
    Some(LineStep::Whole(size))
}
