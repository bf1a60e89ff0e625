//! Frames of a client, judged on a connection with few streams and on one with many.

use crate::made::Made;
use connection_state::{BlockJudged, Connection, Judged, Terms};
use frames::View;
use local_replies::RoutePattern;
use std::alloc::Global;

/// Types of frames (RFC 9113, section 6).
const DATA: u8 = 0;

const HEADERS: u8 = 1;

const SETTINGS: u8 = 4;

const PING: u8 = 6;

const WINDOW_UPDATE: u8 = 8;

/// The flag END_HEADERS.
const WHOLE: u8 = 4;

/// The most octets of a body.
const MOST: u64 = 1_048_576;

/// How many frames are judged a round.
const FRAMES: u32 = 3;

/// How many streams are active on a connection with many, before and behind those that are over:
/// with those that a round opens they are 100.
const BEFORE: u32 = 50;

const BEHIND: u32 = 47;

/// How many are over.
const OVER: u32 = 9_000;

/// Octets of DATA.
static CONTENT: [u8; 16384] = [b'x'; 16384];

/// The block of `:method: GET`, `:scheme: http`, `:path: /` and `:authority: h` (RFC 7541, appendix
/// A and section 6.2.2).
const GET: &[u8] = b"\x82\x86\x84\x01\x01h";

/// That of `:method: GET` alone, which is no request's (RFC 9113, section 8.3.1).
const METHOD: &[u8] = b"\x82";

/// How many streams a connection has.
#[derive(Clone, Copy)]
pub enum StreamCount {
    Few,
    Many,
}

/// What is judged.
#[derive(Clone, Copy)]
pub enum Judging {
    Nothing,
    Ping,
    WindowUpdate,
    Data,
    Headers,
}

/// The connection of a round.
#[derive(Drop)]
struct Client {
    connection: Connection,
    routes: Vec<RoutePattern>,
    next: u32,
}

/// A route for all requests.
fn routes_of(alloc: Global) -> Option<Vec<RoutePattern>> {
    let route = RoutePattern {
        authority: Vec::new(alloc),
        prefix: Vec::from_slice(alloc, b"/").ok()?,
    };
    vec![in alloc; route].ok()
}

impl Client {
    /// One of whom nothing came yet, and for whose requests there is a route.
    fn new(alloc: Global) -> Option<Self> {
        Some(Client {
            routes: routes_of(alloc)?,
            connection: Connection::new(alloc, 0),
            next: 1,
        })
    }

    /// A number for what comes of a frame without a fragment of a header block.
    fn judge(&mut self, kind: u8, flags: u8, id: u32, payload: &[u8]) -> Option<u8> {
        if payload.len() > CONTENT.len() {
            return None;
        }
        let view = View {
            kind,
            flags,
            id,
            payload,
        };
        match kind {
            DATA | SETTINGS | PING | WINDOW_UPDATE => {
                Some(number_of(self.connection.judge(view, MOST)))
            }
            _ => None,
        }
    }

    /// A number for what comes of a whole block on the next stream.
    fn judge_block(&mut self, block: &[u8]) -> Option<u8> {
        if block.len() > CONTENT.len() || self.routes.len() > 1 {
            return None;
        }
        let id = self.next;
        self.next = id.checked_add(2)?;
        let view = View {
            kind: HEADERS,
            flags: WHOLE,
            id,
            payload: block,
        };
        let terms = Terms {
            routes: &self.routes,
            max_body: MOST,
        };
        let judged = self.connection.judge_fragment(view, false, terms).ok()?;
        Some(number_of_block(judged))
    }

    /// Begins a request on the next stream.
    fn begin(&mut self) -> Option<u8> {
        self.judge_block(GET)
    }

    /// Begins requests that stay active.
    fn begin_active(&mut self, count: u32) -> Option<()> {
        for _ in 0..count {
            self.begin()?;
        }
        Some(())
    }

    /// Opens streams that are over at once, since their blocks are no requests.
    fn begin_over(&mut self, count: u32) -> Option<()> {
        for _ in 0..count {
            self.judge_block(METHOD)?;
        }
        Some(())
    }

    /// Its settings come, and then the requests that it has before a round: one that is active, or
    /// 97 and 9,000 that are over.
    fn prepare(&mut self, streams: StreamCount) -> Option<()> {
        self.judge(SETTINGS, 0, 0, b"")?;
        match streams {
            StreamCount::Few => self.begin_active(1),
            StreamCount::Many => {
                self.begin_active(BEFORE)?;
                self.begin_over(OVER)?;
                self.begin_active(BEHIND)
            }
        }
    }
}

/// A number for an answer to a frame without a fragment of a header block.
fn number_of(judged: Judged<'_>) -> u8 {
    match judged {
        Judged::Failed(_) => 0,
        Judged::Ignored => 1,
        Judged::Settings(_) => 2,
        Judged::Ping(_) => 3,
        Judged::Granted => 4,
        Judged::Reset => 5,
        Judged::Content(_, _) => 6,
        Judged::LargeBody => 7,
    }
}

/// A number for an answer to a frame with one.
fn number_of_block(judged: BlockJudged) -> u8 {
    match judged {
        BlockJudged::Failed(_) => 0,
        BlockJudged::GoesOn => 8,
        BlockJudged::Begins { .. } => 9,
        BlockJudged::Answered(_) => 10,
        BlockJudged::Trailers(_) => 11,
        BlockJudged::Ignored => 12,
    }
}

/// Judges a frame, and gives the number of what comes of it.
fn judge_one(client: &mut Client, judging: Judging) -> Option<u8> {
    match judging {
        Judging::Nothing => Some(0),
        Judging::Ping => client.judge(PING, 0, 0, b"12345678"),
        Judging::WindowUpdate => client.judge(WINDOW_UPDATE, 0, 1, b"\x00\x00\x00\x01"),
        Judging::Data => client.judge(DATA, 0, 1, &CONTENT),
        Judging::Headers => client.begin(),
    }
}

/// Judges frames on a connection with these streams, and keeps the numbers of what comes of them.
fn judge_frames(
    client: &mut Client,
    streams: StreamCount,
    judging: Judging,
    out: &mut Vec<u8>,
) -> Option<()> {
    client.prepare(streams)?;
    for _ in 0..FRAMES {
        out.push(judge_one(client, judging)?).ok()?;
    }
    Some(())
}

/// Three frames a round, each round on a new connection: PING, WINDOW_UPDATE or DATA on its first
/// stream, HEADERS on new ones.
pub(crate) fn judge(
    alloc: Global,
    rounds: u32,
    made: &mut Made,
    streams: StreamCount,
    judging: Judging,
) -> Option<()> {
    for _ in 0..rounds {
        made.clear();
        let mut client = Client::new(alloc)?;
        judge_frames(&mut client, streams, judging, &mut made.octets)?;
    }
    Some(())
}
