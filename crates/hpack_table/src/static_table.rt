//! The static table (RFC 7541, appendix A).

ghost use Rattle.std.specs.Prelude.{◌≡◌, MatchOption, slice_get, get_or, Some, None};
ghost use Rattle.model.specs.Tables.{static_table, field_of};
ghost use Rattle.hpack_table.specs.Finding.{Finds};
ghost use Rattle.hpack_table.specs.Searching.{HasNotName, IsStartOf, slot_of, static_alone};

use crate::found::Found;

/// The number of its entries.
pub const STATIC_LENGTH: usize = 61;

/// The number of slots for names. The names of the entries go to different ones.
const SLOTS: usize = 128;

/// Names and values, from index 1 on.
static ENTRIES: [(&[u8], &[u8]); STATIC_LENGTH] = [
    (b":authority", b""),
    (b":method", b"GET"),
    (b":method", b"POST"),
    (b":path", b"/"),
    (b":path", b"/index.html"),
    (b":scheme", b"http"),
    (b":scheme", b"https"),
    (b":status", b"200"),
    (b":status", b"204"),
    (b":status", b"206"),
    (b":status", b"304"),
    (b":status", b"400"),
    (b":status", b"404"),
    (b":status", b"500"),
    (b"accept-charset", b""),
    (b"accept-encoding", b"gzip, deflate"),
    (b"accept-language", b""),
    (b"accept-ranges", b""),
    (b"accept", b""),
    (b"access-control-allow-origin", b""),
    (b"age", b""),
    (b"allow", b""),
    (b"authorization", b""),
    (b"cache-control", b""),
    (b"content-disposition", b""),
    (b"content-encoding", b""),
    (b"content-language", b""),
    (b"content-length", b""),
    (b"content-location", b""),
    (b"content-range", b""),
    (b"content-type", b""),
    (b"cookie", b""),
    (b"date", b""),
    (b"etag", b""),
    (b"expect", b""),
    (b"expires", b""),
    (b"from", b""),
    (b"host", b""),
    (b"if-match", b""),
    (b"if-modified-since", b""),
    (b"if-none-match", b""),
    (b"if-range", b""),
    (b"if-unmodified-since", b""),
    (b"last-modified", b""),
    (b"link", b""),
    (b"location", b""),
    (b"max-forwards", b""),
    (b"proxy-authenticate", b""),
    (b"proxy-authorization", b""),
    (b"range", b""),
    (b"referer", b""),
    (b"refresh", b""),
    (b"retry-after", b""),
    (b"server", b""),
    (b"set-cookie", b""),
    (b"strict-transport-security", b""),
    (b"transfer-encoding", b""),
    (b"user-agent", b""),
    (b"vary", b""),
    (b"via", b""),
    (b"www-authenticate", b""),
];

/// For each slot the place of the first entry whose name goes there, or the number of entries.
/// Entries of one name stand together.
static STARTS: [u8; SLOTS] = [
    61, 31, 61, 61, 28, 54, 49, 47, 61, 61, 61, 61, 18, 61, 45, 24, 61, 32, 42, 61, 34, 61, 61, 30,
    57, 3, 61, 61, 61, 36, 16, 61, 15, 61, 61, 60, 61, 61, 61, 44, 37, 52, 61, 61, 61, 61, 53, 61,
    61, 61, 61, 61, 61, 61, 21, 61, 56, 46, 61, 51, 61, 61, 61, 41, 61, 43, 38, 61, 61, 50, 61, 1,
    5, 58, 61, 61, 27, 61, 61, 61, 55, 61, 61, 19, 14, 33, 7, 61, 59, 61, 61, 61, 61, 61, 61, 61,
    39, 61, 61, 61, 61, 61, 61, 0, 61, 48, 61, 61, 35, 61, 61, 61, 29, 61, 20, 61, 61, 22, 61, 23,
    61, 61, 17, 26, 61, 25, 61, 40,
];

type Entry = (&'static [u8], &'static [u8]);

/// The entry at a place.
fn entry_at(entries: &[Entry], place: usize) -> Option<Entry>
    ensures { result ≡ slice_get entries.now place }
{
    entries.get(place).copied()
}

/// The name and the value at a place of the static table, which is its index less 1 (RFC 7541, appendix A).
pub fn static_entry(place: usize) -> Option<Entry>
    ensures { MatchOption result (slice_get static_table place ≡ None) (λ p. slice_get static_table place ≡ Some (field_of p.0.now p.1.now)) }
{
    entry_at(&ENTRIES, place)
}

/// The octet at a place, or 0.
fn octet_at(octets: &[u8], place: usize) -> usize
    ensures { result ≡ get_or octets.now place 0 }
{
    match octets.get(place) {
        Some(octet) => usize::from(*octet),
        None => 0,
    }
}

/// The slot of a name, by its length, its first octet and its last.
fn slot_of(name: &[u8]) -> usize
    ensures { result ≡ slot_of name.now }
{
    let last = octet_at(name, name.len().saturating_sub(1));
    (name.len() % SLOTS * 89 + octet_at(name, 0) * 66 + last) % SLOTS
}

/// The place of the first entry with the name, if any has it.
fn start_of(name: &[u8]) -> usize
    ensures { IsStartOf name.now result }
{
    octet_at(&STARTS, slot_of(name))
}

/// The value at a place of the static table, where the name there is this one.
fn value_of(name: &[u8], place: usize) -> Option<&'static [u8]>
    ensures { MatchOption result (HasNotName name.now place) (λ value. slice_get static_table place ≡ Some (field_of name.now value.now)) }
{
    let (entry_name, entry_value) = static_entry(place)?;
    if entry_name == name {
        Some(entry_value)
    } else {
        None
    }
}

/// The least index of an entry of the static table with the name and the value; where there is
/// none, of one with the name.
pub fn find_static(name: &[u8], value: &[u8]) -> Found
    ensures { Finds static_alone name.now value.now result }
{
    let start = start_of(name);
    let mut place = start;
    while let Some(entry_value) = value_of(name, place) {
        if entry_value == value {
            return Found::Both(place as u32 + 1);
        }
        place += 1;
    }
    if place == start {
        return Found::Absent;
    }
    Found::Name(start as u32 + 1)
}
