//! Drives the layers over fixed samples, so that their instructions can be counted:
//! `bench PART ROUNDS`, where `all` stands for every part. For each part it prints the name and a
//! checksum of what the last round made.
#![tactic(auto)]

mod bodies;
mod encoders;
mod exchanges;
mod gets;
mod judging;
mod made;
mod passed;
mod posts;
mod samples;
mod texts;

use crate::gets::{Load, Method};
use crate::judging::{Judging, StreamCount};
use crate::made::Made;
use crate::passed::Passed;
use crate::samples::{BARE_RESPONSE, CHUNKED_RESPONSE, SMALL_RESPONSE, TRAILING_RESPONSE};
use std::alloc::Global;
use std::env;
use std::process::ExitCode;

/// The names of the parts.
const PARTS: [&str; 38] = [
    "exchanges",
    "decode",
    "send",
    "small-head",
    "large-head",
    "encode",
    "encode-known",
    "encode-new",
    "sized-body",
    "chunked-body",
    "huffman-decode",
    "huffman-encode",
    "find",
    "few-none",
    "few-ping",
    "few-update",
    "few-data",
    "few-headers",
    "many-none",
    "many-ping",
    "many-update",
    "many-data",
    "many-headers",
    "gets",
    "gets-active",
    "active",
    "gets-9000",
    "gets-9100",
    "gets-bare",
    "gets-chunked",
    "gets-trailers",
    "gets-kept",
    "gets-kept-active",
    "posts",
    "pieces-none",
    "pieces",
    "parts-none",
    "parts",
];

/// The status is 1 for any command line but a part and a number of rounds, where a layer refuses
/// the samples or memory is refused, and where a write fails.
fn main(rt: HostRuntime) -> ExitCode {
    match run(&rt) {
        Some(()) => ExitCode::SUCCESS,
        None => ExitCode::FAILURE,
    }
}

/// Runs the parts that the command line names.
fn run(rt: &HostRuntime) -> Option<()> {
    let mut words = env::args(rt).ok()?.skip(1);
    let wanted = words.next()?;
    let rounds = words.next()?.parse::<u32>().ok()?;
    for part in &PARTS {
        if wanted.as_str() == "all" || wanted.as_str() == *part {
            let mut made = Made::new(rt.alloc());
            run_part(part, rt.alloc(), rounds, &mut made)?;
            let sum = made.checksum();
            println!(rt; "{part} {sum:016x}").ok()?;
        }
    }
    Some(())
}

/// Runs the rounds of a part, and leaves what the last one made. None where something is refused.
fn run_part(part: &str, alloc: Global, rounds: u32, made: &mut Made) -> Option<()> {
    match part {
        "exchanges" => exchanges::exchange(alloc, rounds, made),
        "decode" => exchanges::decode(alloc, rounds, made),
        "send" => exchanges::send(alloc, rounds, made),
        "small-head" => exchanges::read_small(alloc, rounds, made),
        "large-head" => exchanges::read_large(alloc, rounds, made),
        "encode" => encoders::encode(alloc, rounds, made),
        "encode-known" => encoders::encode_known(alloc, rounds, made),
        "encode-new" => encoders::encode_new(alloc, rounds, made),
        "sized-body" => bodies::read_sized(alloc, rounds, made),
        "chunked-body" => bodies::read_chunked(alloc, rounds, made),
        "huffman-decode" => texts::decode(alloc, rounds, made),
        "huffman-encode" => texts::encode(alloc, rounds, made),
        "find" => encoders::find(alloc, rounds, made),
        "pieces-none" => passed::pass(alloc, rounds, made, Passed::NoPieces),
        "pieces" => passed::pass(alloc, rounds, made, Passed::Pieces),
        "parts-none" => passed::pass(alloc, rounds, made, Passed::NoParts),
        "parts" => passed::pass(alloc, rounds, made, Passed::Parts),
        _ => run_many(part, alloc, rounds, made),
    }
}

/// Runs the rounds of a part that is one of several of its kind.
fn run_many(part: &str, alloc: Global, rounds: u32, made: &mut Made) -> Option<()> {
    match load_of(part) {
        Some(load) => gets::request(alloc, rounds, made, load),
        None => {
            let (streams, judging) = judged_by(part)?;
            judging::judge(alloc, rounds, made, streams, judging)
        }
    }
}

/// The requests that a part makes.
fn load_of(part: &str) -> Option<Load> {
    let kept = Load {
        is_kept: true,
        ..gets_of(0, 100, SMALL_RESPONSE)
    };
    match part {
        "gets-kept" => Some(kept),
        "gets-kept-active" => Some(Load { active: 99, ..kept }),
        "posts" => Some(Load {
            method: Method::Post,
            ..gets_of(0, 100, SMALL_RESPONSE)
        }),
        _ => closed_gets_of(part),
    }
}

/// The GETs that a part makes whose connections aren't kept.
fn closed_gets_of(part: &str) -> Option<Load> {
    match part {
        "gets" => Some(gets_of(0, 100, SMALL_RESPONSE)),
        "gets-active" => Some(gets_of(99, 100, SMALL_RESPONSE)),
        "active" => Some(gets_of(99, 0, SMALL_RESPONSE)),
        "gets-9000" => Some(gets_of(0, 9_000, SMALL_RESPONSE)),
        "gets-9100" => Some(gets_of(0, 9_100, SMALL_RESPONSE)),
        "gets-bare" => Some(gets_of(0, 100, BARE_RESPONSE)),
        "gets-chunked" => Some(gets_of(0, 100, CHUNKED_RESPONSE)),
        "gets-trailers" => Some(gets_of(0, 100, TRAILING_RESPONSE)),
        _ => None,
    }
}

/// So many GETs that nobody answers, and so many that are answered with this response.
fn gets_of(active: u32, answered: u32, response: &'static [u8]) -> Load {
    Load {
        method: Method::Get,
        is_kept: false,
        active,
        answered,
        response,
    }
}

/// Which frames a part judges, and on which connection.
fn judged_by(part: &str) -> Option<(StreamCount, Judging)> {
    match part {
        "few-none" => Some((StreamCount::Few, Judging::Nothing)),
        "few-ping" => Some((StreamCount::Few, Judging::Ping)),
        "few-update" => Some((StreamCount::Few, Judging::WindowUpdate)),
        "few-data" => Some((StreamCount::Few, Judging::Data)),
        "few-headers" => Some((StreamCount::Few, Judging::Headers)),
        "many-none" => Some((StreamCount::Many, Judging::Nothing)),
        "many-ping" => Some((StreamCount::Many, Judging::Ping)),
        "many-update" => Some((StreamCount::Many, Judging::WindowUpdate)),
        "many-data" => Some((StreamCount::Many, Judging::Data)),
        "many-headers" => Some((StreamCount::Many, Judging::Headers)),
        _ => None,
    }
}
