//! Scripts, and their replay.

ghost use Rattle.std.specs.Prelude.{IfOk};
ghost use Rattle.gateway.specs.Setups.{setup_of, IsServable};

use gateway::{Config, Event, Output, Route, Text};
use replay::{ReplayFault, ScriptFault, print_steps, read_script, replay, run_script};
use std::alloc::{AllocError, Global};
use std::io::Write;
use std::process::Abort;
use std::string::String;
use std::test::*;
use std::{io, str};

/// The preface of a client.
const PREFACE: &str = "505249202a20485454502f322e300d0a0d0a534d0d0a0d0a";

/// SETTINGS without entries.
const SETTINGS: &str = "000000040000000000";

/// SETTINGS with ACK.
const ACK: &str = "000000040100000000";

/// The gateway's SETTINGS: at most 100 streams, and header lists of at most 16,384 octets.
const OWN_SETTINGS: &str = "00000c040000000000000300000064000600004000";

/// HEADERS of stream 1 with END_STREAM and END_HEADERS: GET, http, / and www.example.com.
const REQUEST: &str = "000014010500000001828684410f7777772e6578616d706c652e636f6d";

/// The request upstream: its line, `host`, `via: 2.0 h2gw`, `connection: close` and an empty line.
const GET: &str =
    "474554202f20485454502f312e310d0a686f73743a207777772e6578616d706c652e636f6d0d0a7669613a20322e3020683267770d0a636f6e6e656374696f6e3a20636c6f73650d0a0d0a";

/// What a replay of a script writes on its two writers, and its status.
struct Outcome {
    status: u8,
    out: Vec<u8>,
    err: Vec<u8>,
}

fn written(alloc: Global, config: Option<&str>, script: &str) -> Outcome {
    let mut out = Vec::new(alloc);
    let mut err = Vec::new(alloc);
    let status = replay(alloc, config, script, &mut out, &mut err);
    Outcome { status, out, err }
}

/// The replay writes these texts on its two writers, and this is its status.
fn assert_outcome(rt: &impl Abort, outcome: Outcome, lines: &str, reason: &str, wanted: u8) {
    let Outcome { status, out, err } = outcome;
    assert_eq!(rt; str::from_utf8(&out).ok(), Some(lines));
    assert_eq!(rt; str::from_utf8(&err).ok(), Some(reason));
    assert_eq!(rt; status, wanted);
}

/// The script is run, and the lines are written.
fn assert_runs(rt: &impl Abort, outcome: Outcome, lines: &str) {
    assert_outcome(rt, outcome, lines, "", 0);
}

/// The replay is refused for this reason.
fn assert_stops(rt: &impl Abort, outcome: Outcome, reason: &str) {
    assert_outcome(rt, outcome, "", reason, 1);
}

/// The text that these parts are, one behind another.
fn joined(alloc: Global, parts: &[&str]) -> Result<String, AllocError> {
    let mut text = String::new(alloc);
    for part in parts {
        text.push_str(part)?;
    }
    Ok(text)
}

/// The script of these parts is run without a configuration, and the lines of those are written.
fn assert_prints(
    rt: &impl Abort,
    alloc: Global,
    script: &[&str],
    lines: &[&str],
) -> Result<(), Fail> {
    let script = joined(alloc, script)?;
    let lines = joined(alloc, lines)?;
    assert_runs(rt, written(alloc, None, &script), &lines);
    Ok(())
}

/// The script is refused for this reason.
fn assert_refuses(rt: &impl Abort, alloc: Global, script: &str, reason: &str) {
    assert_stops(rt, written(alloc, None, script), reason);
}

#[test]
fn request_in_one_piece(rt: HostRuntime) -> Result<(), Fail> {
    assert_prints(
        &rt,
        rt.alloc(),
        &["C ", PREFACE, SETTINGS, REQUEST, "\n"],
        &["C ", OWN_SETTINGS, ACK, "\nO 1 0\nU 1 ", GET, "\n"],
    )
}

/// Adds an octet of a request to a script, and to the lines what is printed behind the octet at this place.
fn add_octet(
    script: &mut String,
    lines: &mut String,
    place: usize,
    octet: u8,
) -> Result<(), AllocError> {
    writeln!(script, "C {octet:02x}")?;
    match place {
        0 => writeln!(lines, "C {OWN_SETTINGS}"),
        32 => writeln!(lines, "C {ACK}"),
        61 => writeln!(lines, "O 1 0\nU 1 {GET}"),
        _ => Ok(()),
    }
}

#[test]
fn request_in_single_octets(rt: HostRuntime) -> Result<(), Fail> {
    let alloc = rt.alloc();
    let text = joined(alloc, &[PREFACE, SETTINGS, REQUEST])?;
    let octets = hex::decode(alloc, &text)?;
    let mut script = String::new(alloc);
    let mut lines = String::new(alloc);
    for (place, octet) in octets.iter().enumerate() {
        add_octet(&mut script, &mut lines, place, *octet)?;
        assert_runs(&rt, written(alloc, None, &script), &lines);
    }
    Ok(())
}

#[test]
fn wrong_preface(rt: HostRuntime) -> Result<(), Fail> {
    let goaway = "0000080700000000000000000000000001";
    assert_prints(
        &rt,
        rt.alloc(),
        &["C 47\n"],
        &["C ", OWN_SETTINGS, goaway, "\nXC\n"],
    )
}

#[test]
fn client_ends_at_once(rt: HostRuntime) -> Result<(), Fail> {
    assert_prints(&rt, rt.alloc(), &["CE\n"], &["C ", OWN_SETTINGS, "\nXC\n"])
}

#[test]
fn frame_too_long(rt: HostRuntime) -> Result<(), Fail> {
    let goaway = "0000080700000000000000000000000006";
    assert_prints(
        &rt,
        rt.alloc(),
        &["C ", PREFACE, SETTINGS, "\nC 004001000000000001\n"],
        &["C ", OWN_SETTINGS, ACK, "\nC ", goaway, "\nXC\n"],
    )
}

// The blocks of RFC 7541, appendices C.4.1 and C.4.2.
#[test]
fn blocks_share_a_table(rt: HostRuntime) -> Result<(), Fail> {
    let first = "000011010500000001828684418cf1e3c2e5f23a6ba0ab90f4ff";
    let second = "00000c010500000003828684be5886a8eb10649cbf";
    let text =
        "474554202f20485454502f312e310d0a686f73743a207777772e6578616d706c652e636f6d0d0a63616368652d636f6e74726f6c3a206e6f2d63616368650d0a7669613a20322e3020683267770d0a636f6e6e656374696f6e3a20636c6f73650d0a0d0a";
    assert_prints(
        &rt,
        rt.alloc(),
        &["C ", PREFACE, SETTINGS, first, "\nC ", second, "\n"],
        &[
            "C ",
            OWN_SETTINGS,
            ACK,
            "\nO 1 0\nU 1 ",
            GET,
            "\nO 2 0\nU 2 ",
            text,
            "\n",
        ],
    )
}

#[test]
fn an_index_without_an_entry_ends_the_connection(rt: HostRuntime) -> Result<(), Fail> {
    let headers = "000001010500000001be";
    let goaway = "0000080700000000000000000000000009";
    assert_prints(
        &rt,
        rt.alloc(),
        &["C ", PREFACE, SETTINGS, "\nC ", headers, "\n"],
        &["C ", OWN_SETTINGS, ACK, "\nC ", goaway, "\nXC\n"],
    )
}

/// A response with a body of two octets.
const RESPONSE: &[u8] = b"HTTP/1.1 200 OK\r\nContent-Length: 2\r\n\r\nhi";

/// Its connection is closed, and it goes back as HEADERS, and DATA with END_STREAM.
const PASSED: &str = "X 1\nC 000005010400000001880f0d01320000020001000000016869\n";

/// Behind a first request these lines of a script print those.
fn assert_answers(rt: &impl Abort, alloc: Global, more: &str, wanted: &str) -> Result<(), Fail> {
    assert_prints(
        rt,
        alloc,
        &["C ", PREFACE, SETTINGS, REQUEST, "\n", more],
        &["C ", OWN_SETTINGS, ACK, "\nO 1 0\nU 1 ", GET, "\n", wanted],
    )
}

/// A first response, which comes in these two pieces, is passed on.
fn assert_is_passed(rt: &impl Abort, alloc: Global, front: &[u8], back: &[u8]) -> Result<(), Fail> {
    let front = hex::encode(alloc, front)?;
    let back = hex::encode(alloc, back)?;
    let more = joined(alloc, &["U 1 ", &front, "\nU 1 ", &back, "\n"])?;
    assert_answers(rt, alloc, &more, PASSED)
}

#[test]
fn response_in_one_piece(rt: HostRuntime) -> Result<(), Fail> {
    let octets = hex::encode(rt.alloc(), RESPONSE)?;
    let more = joined(rt.alloc(), &["U 1 ", &octets, "\n"])?;
    assert_answers(&rt, rt.alloc(), &more, PASSED)
}

#[test]
fn response_cut_at_each_octet(rt: HostRuntime) -> Result<(), Fail> {
    for cut in 0..RESPONSE.len() {
        let (front, back) = RESPONSE.split_at(cut);
        assert_is_passed(&rt, rt.alloc(), front, back)?;
    }
    Ok(())
}

#[test]
fn response_in_single_octets(rt: HostRuntime) -> Result<(), Fail> {
    let alloc = rt.alloc();
    let mut more = String::new(alloc);
    for octet in RESPONSE {
        writeln!(more, "U 1 {octet:02x}")?;
    }
    assert_answers(&rt, rt.alloc(), &more, PASSED)
}

/// A response whose length is 0 goes back as HEADERS with END_STREAM.
fn assert_ends_with_head(rt: &impl Abort, alloc: Global) -> Result<(), Fail> {
    let empty = hex::encode(alloc, b"HTTP/1.1 200 OK\r\nContent-Length: 0\r\n\r\n")?;
    let more = joined(alloc, &["U 1 ", &empty, "\n"])?;
    let wanted = "X 1\nC 000005010500000001880f0d0130\n";
    assert_answers(rt, alloc, &more, wanted)
}

/// So does a response to HEAD, whatever its length.
fn assert_head_has_no_body(rt: &impl Abort, alloc: Global) -> Result<(), Fail> {
    let answer = hex::encode(alloc, b"HTTP/1.1 200 OK\r\nContent-Length: 5\r\n\r\n")?;
    let text = hex::encode(
        alloc,
        b"HEAD / HTTP/1.1\r\nhost: h\r\nvia: 2.0 h2gw\r\nconnection: close\r\n\r\n",
    )?;
    let head = "\nC 00000b0105000000010204484541448684410168\n";
    let passed = "\nX 1\nC 000005010500000001880f0d0135\n";
    assert_prints(
        rt,
        alloc,
        &["C ", PREFACE, SETTINGS, head, "U 1 ", &answer, "\n"],
        &["C ", OWN_SETTINGS, ACK, "\nO 1 0\nU 1 ", &text, passed],
    )
}

#[test]
fn responses_without_a_body(rt: HostRuntime) -> Result<(), Fail> {
    assert_ends_with_head(&rt, rt.alloc())?;
    assert_head_has_no_body(&rt, rt.alloc())
}

/// The lines of a script on which a second request comes, and then its response, and that to the first.
fn second_request(alloc: Global) -> Result<String, Fail> {
    let other = hex::encode(
        alloc,
        b"HTTP/1.1 404 Not Found\r\nx-a: 1\r\nContent-Length: 1\r\n\r\n!",
    )?;
    let first = hex::encode(alloc, RESPONSE)?;
    let request = "C 000004010500000003828684be\nU 2 ";
    Ok(joined(alloc, &[request, &other, "\nU 1 ", &first, "\n"])?)
}

#[test]
fn each_stream_has_its_own_response(rt: HostRuntime) -> Result<(), Fail> {
    let more = second_request(rt.alloc())?;
    let passed = "\nX 2\nC 00000c0104000000038d0003782d6101310f0d013100000100010000000321\n";
    let wanted = joined(rt.alloc(), &["O 2 0\nU 2 ", GET, passed, PASSED])?;
    assert_answers(&rt, rt.alloc(), &more, &wanted)
}

#[test]
fn refused_scripts(rt: HostRuntime) -> Result<(), Fail> {
    assert_refuses(&rt, rt.alloc(), "CT 1", "line 1: not admitted\n");
    assert_refuses(&rt, rt.alloc(), "Z", "line 1: not a line\n");
    assert_refuses(&rt, rt.alloc(), "CT 1\nZ\n", "line 2: not a line\n");
    assert_refuses(&rt, rt.alloc(), "CE\nCE", "line 2: not admitted\n");
    assert_prints(&rt, rt.alloc(), &[], &[])
}

#[test]
fn refused_configurations(rt: HostRuntime) -> Result<(), Fail> {
    let reasons = [
        ("max_body = -1\npolicy = \"x\"", "config: bad policy\n"),
        ("colour = 1", "config: unknown key\n"),
        ("policy", "config: not TOML\n"),
        (
            "[[route]]\nprefix = \"/\"\nupstream = \"a.example:80\"",
            "config: bad upstream\n",
        ),
    ];
    for (config, reason) in reasons {
        // The script isn't looked at, whatever it is.
        for script in ["CE", "Z", "CT 1"] {
            assert_stops(&rt, written(rt.alloc(), Some(config), script), reason);
        }
    }
    let outcome = written(rt.alloc(), Some(""), "CT 1");
    assert_stops(&rt, outcome, "line 1: not admitted\n");
    Ok(())
}

// No route of the configuration is one for the request, so that the gateway replies itself.
#[test]
fn routes_are_those_of_the_configuration(rt: HostRuntime) -> Result<(), Fail> {
    let alloc = rt.alloc();
    let config =
        "[[route]]\nauthority = \"a.example\"\nprefix = \"/\"\nupstream = \"127.0.0.1:80\"\n";
    let script = joined(alloc, &["C ", PREFACE, SETTINGS, REQUEST, "\n"])?;
    let not_found = "0000050105000000018d0f0d0130";
    let lines = joined(alloc, &["C ", OWN_SETTINGS, ACK, not_found, "\n"])?;
    assert_runs(&rt, written(alloc, Some(config), &script), &lines);
    assert_runs(&rt, written(alloc, Some(""), &script), &lines);
    Ok(())
}

/// By this configuration a first response is passed on so.
fn assert_is_passed_by(
    rt: &impl Abort,
    alloc: Global,
    config: &str,
    passed: &str,
) -> Result<(), Fail> {
    let octets = hex::encode(alloc, RESPONSE)?;
    let script = joined(
        alloc,
        &["C ", PREFACE, SETTINGS, REQUEST, "\nU 1 ", &octets, "\n"],
    )?;
    let lines = joined(
        alloc,
        &["C ", OWN_SETTINGS, ACK, "\nO 1 0\nU 1 ", GET, "\n", passed],
    )?;
    assert_runs(rt, written(alloc, Some(config), &script), &lines);
    Ok(())
}

// The length is added to the table.
#[test]
fn the_policy_is_that_of_the_configuration(rt: HostRuntime) -> Result<(), Fail> {
    let alloc = rt.alloc();
    let route = "[[route]]\nprefix = \"/\"\nupstream = \"127.0.0.1:80\"\n";
    let indexing = joined(alloc, &["policy = \"indexing\"\n", route])?;
    let passed = "X 1\nC 000004010400000001885c01320000020001000000016869\n";
    assert_is_passed_by(&rt, alloc, &indexing, passed)?;
    assert_is_passed_by(&rt, alloc, route, PASSED)
}

/// Adds a word, a number and a `;`.
fn show_number(text: &mut String, word: &str, number: u64) -> Result<(), AllocError> {
    write!(text, "{word} {number};")
}

/// Adds an event as a script has it, but for a `;` behind it.
fn show(text: &mut String, event: &Event) -> Result<(), AllocError> {
    match event {
        Event::Client(piece) => {
            let octets = hex::encode(*text.allocator(), piece)?;
            write!(text, "C {octets};")
        }
        Event::ClientEnd => text.push_str("CE;"),
        Event::ClientTook(count) => show_number(text, "CT", *count),
        Event::Up(k, piece) => {
            let octets = hex::encode(*text.allocator(), piece)?;
            write!(text, "U {k} {octets};")
        }
        Event::UpEnd(k) => show_number(text, "UE", u64::from(*k)),
        Event::UpFailed(k) => show_number(text, "UF", u64::from(*k)),
        Event::UpTook(k, count) => write!(text, "UT {k} {count};"),
        Event::Drain => text.push_str("D;"),
    }
}

/// Events as a script has them, but for a `;` behind each.
fn shown(alloc: Global, events: &[Event]) -> Result<String, AllocError> {
    let mut text = String::new(alloc);
    for event in events {
        show(&mut text, event)?;
    }
    Ok(text)
}

#[test]
fn reads_scripts(rt: HostRuntime) -> Result<(), Fail> {
    let alloc = rt.alloc();
    let script = "C 00fF\nC \nCE\nCT 007\nU 1 6869\nU 2 \nUE 3\nUF 4\nUT 5 999999999\nD";
    let events = read_script(alloc, script).map_err(|_| "a script")?;
    let lines = "C 00ff;C ;CE;CT 7;U 1 6869;U 2 ;UE 3;UF 4;UT 5 999999999;D;";
    assert_eq!(rt; shown(alloc, &events)?.as_str(), lines);
    let ended = read_script(alloc, "CE\n").map_err(|_| "a script")?;
    assert_eq!(rt; shown(alloc, &ended)?.as_str(), "CE;");
    Ok(())
}

/// The second line of a script is refused.
fn assert_is_no_line(rt: &impl Abort, alloc: Global, line: &str) -> Result<(), Fail> {
    let script = joined(alloc, &["CE\n", line, "\nZ\n"])?;
    let fault = read_script(alloc, &script).err().ok_or("a fault")?;
    assert_eq!(rt; fault, ScriptFault::NotALine(2), "at {line}");
    Ok(())
}

#[test]
fn refuses_lines(rt: HostRuntime) -> Result<(), Fail> {
    let wrong = [
        "",
        " ",
        "C",
        "C 0",
        "C 0g",
        "C  00",
        "C 00 ",
        "CE ",
        "ce",
        "CT",
        "CT ",
        "CT +1",
        "CT 1 ",
        "CT 1234567890",
        "U 00",
        "U 1",
        "U  00",
        "U x 00",
        "UE",
        "UE 1 2",
        "UT 1",
        "UT 1 ",
        "UT 1 2 3",
        "CE\r",
        "D ",
        "D 1",
        "d",
        "X 1",
    ];
    for line in wrong {
        assert_is_no_line(&rt, rt.alloc(), line)?;
    }
    Ok(())
}

#[test]
fn prints_outputs(rt: HostRuntime) -> Result<(), Fail> {
    let alloc = rt.alloc();
    let first = vec![in alloc; Output::Client(b"hi".to_vec(alloc)?), Output::Open(1, 20)]?;
    let second = vec![in alloc;
        Output::Up(1, Text::from_octets(Vec::new(alloc))),
        Output::Close(4294967295),
        Output::CloseClient,
    ]?;
    let steps = vec![in alloc; first, Vec::new(alloc), second]?;
    let text = print_steps(alloc, &steps)?;
    assert_eq!(rt; text.as_str(), "C 6869\nO 1 20\nU 1 \nX 4294967295\nXC\n");
    Ok(())
}

/// A writer that takes nothing.
#[derive(Drop)]
struct Full;

impl Write for Full {
    fn write(&mut self, _octets: &[u8]) -> io::Result<usize> {
        Ok(0)
    }

    fn flush(&mut self) -> io::Result<()> {
        Err(io::Error::from(io::ErrorKind::WriteZero))
    }
}

#[test]
fn failed_writes(rt: HostRuntime) -> Result<(), Fail> {
    let alloc = rt.alloc();
    let mut other = Vec::new(alloc);
    assert_eq!(rt; replay(alloc, None, "CE", &mut Full, &mut other), 2);
    assert_eq!(rt; replay(alloc, None, "Z", &mut other, &mut Full), 2);
    assert_eq!(rt; replay(alloc, Some("a"), "CE", &mut other, &mut Full), 2);
    assert_eq!(rt; other.len(), 0);
    Ok(())
}

/// One route, for paths that begin with `/`.
fn config(alloc: Global) -> Result<Config, AllocError>
    ensures { IfOk result (λ config. IsServable (setup_of config)) }
{
    let route = Route {
        authority: Vec::new(alloc),
        prefix: Vec::from_slice(alloc, b"/")?,
        upstream: String::new(alloc),
    };
    Ok(Config::new(vec![in alloc; route]?))
}

/// Whether the line at this place is refused, and what was put out before it.
fn refused_behind(
    alloc: Global,
    script: &str,
    wanted: usize,
) -> Result<(bool, String), AllocError> {
    let config = config(alloc)?;
    let mut steps = Vec::new(alloc);
    let stop = run_script(alloc, &config, script, &mut steps);
    let is_refused = matches!(stop, Err(ReplayFault::NotAdmitted(place)) if place == wanted);
    Ok((is_refused, print_steps(alloc, &steps)?))
}

#[test]
fn what_was_put_out_before_a_refused_line_is_told(rt: HostRuntime) -> Result<(), Fail> {
    let alloc = rt.alloc();
    let script = joined(alloc, &["C ", PREFACE, SETTINGS, "\nCT 31\n"])?;
    let lines = joined(alloc, &["C ", OWN_SETTINGS, ACK, "\n"])?;
    let (is_refused, text) = refused_behind(alloc, &script, 2)?;
    assert_eq!(rt; (is_refused, text.as_str()), (true, lines.as_str()));
    Ok(())
}
