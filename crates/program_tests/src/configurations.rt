//! The configuration of a gateway.

use configuration::{ConfigFault, Key, read_config};
use gateway::{Config, Passing, Policy};
use std::alloc::Global;
use std::process::Abort;
use std::test::*;

/// The keys of a route that are right.
const ROUTE: &str = "[[route]]\nprefix = \"/\"\nupstream = \"127.0.0.1:80\"\n";

/// The text is refused for this reason.
fn assert_refuses(rt: &impl Abort, alloc: Global, text: &str, fault: ConfigFault) {
    match read_config(alloc, text) {
        Ok(_) => panic!(rt; "taken"),
        Err(found) => assert_eq!(rt; found, fault),
    }
}

/// The text is refused for a wrong value of this key.
fn assert_bad(rt: &impl Abort, alloc: Global, text: &str, key: Key) {
    assert_refuses(rt, alloc, text, ConfigFault::Bad(key));
}

fn taken(rt: &impl Abort, alloc: Global, text: &str) -> Config {
    match read_config(alloc, text) {
        Ok(config) => config,
        Err(_) => panic!(rt; "refused"),
    }
}

/// The configuration has no route, and what stands where nothing else is said.
fn assert_default(rt: &impl Abort, config: &Config) {
    assert!(rt; config.routes.is_empty());
    assert!(rt; matches!(config.policy, Policy::Plain));
    assert!(rt; matches!(config.passing, Passing::Whole));
    assert_eq!(rt; config.max_body, 1_048_576);
    assert_eq!(rt; config.max_response, 1_048_576);
    assert!(rt; !config.keep);
    assert_eq!(rt; config.idle, 8);
    assert_eq!(rt; config.window, 65_535);
}

#[test]
fn defaults(rt: HostRuntime) -> Result<(), Fail> {
    assert_default(&rt, &taken(&rt, rt.alloc(), ""));
    assert_default(&rt, &Config::new(Vec::new(rt.alloc())));
    Ok(())
}

#[test]
fn connections_that_are_kept(rt: HostRuntime) -> Result<(), Fail> {
    assert!(rt; taken(&rt, rt.alloc(), "keep = true").keep);
    assert!(rt; !taken(&rt, rt.alloc(), "keep = false").keep);
    assert_bad(&rt, rt.alloc(), "keep = \"true\"", Key::Keep);
    assert_bad(&rt, rt.alloc(), "keep = 1", Key::Keep);
    // It is judged behind the maxima, and before the routes.
    assert_bad(
        &rt,
        rt.alloc(),
        "keep = 1\nmax_response = -1",
        Key::MaxResponse,
    );
    assert_bad(&rt, rt.alloc(), "route = 1\nkeep = 1", Key::Keep);
    Ok(())
}

#[test]
fn idle_connections(rt: HostRuntime) -> Result<(), Fail> {
    for (text, idle) in [
        ("idle = 0", 0),
        ("idle = 8", 8),
        ("keep = true\nidle = 100", 100),
    ] {
        assert_eq!(rt; taken(&rt, rt.alloc(), text).idle, idle);
    }
    for text in [
        "idle = -1",
        "idle = 101",
        "idle = 264",
        "idle = 8.0",
        "idle = \"8\"",
        "idle = true",
    ] {
        assert_bad(&rt, rt.alloc(), text, Key::Idle);
    }
    // It is judged right behind `keep`, and before the routes.
    assert_bad(&rt, rt.alloc(), "idle = 101\nkeep = 1", Key::Keep);
    assert_bad(&rt, rt.alloc(), "route = 1\nidle = 101", Key::Idle);
    Ok(())
}

#[test]
fn receiving_windows(rt: HostRuntime) -> Result<(), Fail> {
    for (text, window) in [
        ("window = 65535", 65_535),
        ("window = 65_536", 65_536),
        ("window = 1_048_576", 1_048_576),
    ] {
        assert_eq!(rt; taken(&rt, rt.alloc(), text).window, window);
    }
    for text in [
        "window = -1",
        "window = 0",
        "window = 65534",
        "window = 1_048_577",
        "window = 4_295_032_831",
        "window = 65535.0",
        "window = \"65535\"",
        "window = true",
    ] {
        assert_bad(&rt, rt.alloc(), text, Key::Window);
    }
    // It is judged right behind `idle`, and before the routes.
    assert_bad(&rt, rt.alloc(), "window = 0\nidle = 101", Key::Idle);
    assert_bad(&rt, rt.alloc(), "route = 1\nwindow = 0", Key::Window);
    Ok(())
}

#[test]
fn both_policies(rt: HostRuntime) -> Result<(), Fail> {
    let plain = taken(&rt, rt.alloc(), "policy = \"plain\"");
    assert!(rt; matches!(plain.policy, Policy::Plain));
    let indexing = taken(&rt, rt.alloc(), "policy = \"indexing\"");
    assert!(rt; matches!(indexing.policy, Policy::Indexing));
    Ok(())
}

#[test]
fn both_ways_of_passing_bodies_on(rt: HostRuntime) -> Result<(), Fail> {
    let whole = taken(&rt, rt.alloc(), "passing = \"whole\"");
    assert!(rt; matches!(whole.passing, Passing::Whole));
    let streaming = taken(&rt, rt.alloc(), "passing = \"streaming\"");
    assert!(rt; matches!(streaming.passing, Passing::Streaming));
    Ok(())
}

#[test]
fn all_keys(rt: HostRuntime) -> Result<(), Fail> {
    let text =
        "policy = \"plain\"\npassing = \"whole\"\nmax_body = 0\nmax_response = 1_073_741_824\n\
        [[route]]\nauthority = \"a.example\"\nprefix = \"/a\"\nupstream = \"127.0.0.1:8080\"\n\
        [[route]]\nprefix = \"/\"\nupstream = \"[::1]:80\"\n";
    let config = taken(&rt, rt.alloc(), text);
    assert_eq!(rt; config.max_body, 0);
    assert_eq!(rt; config.max_response, 1_073_741_824);
    assert_eq!(rt; config.routes.len(), 2);
    assert_eq!(rt;
        config.routes[0].authority.as_slice(),
        b"a.example".as_slice()
    );
    assert_eq!(rt; config.routes[0].prefix.as_slice(), b"/a".as_slice());
    assert_eq!(rt; config.routes[0].upstream.as_str(), "127.0.0.1:8080");
    assert!(rt; config.routes[1].authority.is_empty());
    assert_eq!(rt; config.routes[1].prefix.as_slice(), b"/".as_slice());
    assert_eq!(rt; config.routes[1].upstream.as_str(), "[::1]:80");
    Ok(())
}

#[test]
fn wrong_keys(rt: HostRuntime) -> Result<(), Fail> {
    let alloc = rt.alloc();
    for text in ["policy = \"x\"", "policy = \"Indexing\"", "policy = 1"] {
        assert_bad(&rt, alloc, text, Key::Policy);
    }
    for text in ["passing = \"x\"", "passing = \"Streaming\"", "passing = []"] {
        assert_bad(&rt, alloc, text, Key::Passing);
    }
    for text in [
        "max_body = -1",
        "max_body = 1_073_741_825",
        "max_body = 1.0",
    ] {
        assert_bad(&rt, alloc, text, Key::MaxBody);
    }
    for text in [
        "max_response = -1",
        "max_response = 1_073_741_825",
        "max_response = \"1\"",
    ] {
        assert_bad(&rt, alloc, text, Key::MaxResponse);
    }
    for text in ["route = 1", "[route]\nprefix = \"/\"", "route = [1]"] {
        assert_bad(&rt, alloc, text, Key::Route);
    }
    Ok(())
}

#[test]
fn wrong_keys_of_routes(rt: HostRuntime) -> Result<(), Fail> {
    let alloc = rt.alloc();
    assert_bad(&rt, alloc, "[[route]]\nauthority = 1", Key::Authority);
    for text in [
        "[[route]]",
        "[[route]]\nprefix = 1",
        "[[route]]\nprefix = \"\"",
        "[[route]]\nprefix = \"a\"",
    ] {
        assert_bad(&rt, alloc, text, Key::Prefix);
    }
    for text in [
        "[[route]]\nprefix = \"/\"",
        "[[route]]\nprefix = \"/\"\nupstream = 80",
        "[[route]]\nprefix = \"/\"\nupstream = \"127.0.0.1\"",
        "[[route]]\nprefix = \"/\"\nupstream = \"localhost:80\"",
        "[[route]]\nprefix = \"/\"\nupstream = \"127.0.0.1:65536\"",
    ] {
        assert_bad(&rt, alloc, text, Key::Upstream);
    }
    Ok(())
}

#[test]
fn the_first_wrong_key(rt: HostRuntime) -> Result<(), Fail> {
    let alloc = rt.alloc();
    assert_bad(
        &rt,
        alloc,
        "max_body = -1\npassing = 1\npolicy = 1",
        Key::Policy,
    );
    assert_bad(&rt, alloc, "max_response = -1\nmax_body = -1", Key::MaxBody);
    assert_bad(&rt, alloc, "colour = 1\nroute = 1", Key::Route);
    let routes = format!(in alloc;
        "{ROUTE}[[route]]\nprefix = 1\nauthority = 1\n[[route]]\nauthority = 1"
    )?;
    assert_bad(&rt, alloc, &routes, Key::Authority);
    let later = format!(in alloc; "{ROUTE}colour = 1\n[[route]]\nprefix = \"/\"")?;
    assert_bad(&rt, alloc, &later, Key::Upstream);
    Ok(())
}

#[test]
fn unknown_keys(rt: HostRuntime) -> Result<(), Fail> {
    let alloc = rt.alloc();
    assert_refuses(&rt, alloc, "colour = 1", ConfigFault::UnknownKey);
    assert_refuses(&rt, alloc, "prefix = \"/\"", ConfigFault::UnknownKey);
    let routes = format!(in alloc; "{ROUTE}policy = \"plain\"\n")?;
    assert_refuses(&rt, alloc, &routes, ConfigFault::UnknownKey);
    Ok(())
}

#[test]
fn no_toml(rt: HostRuntime) -> Result<(), Fail> {
    for text in [
        "policy",
        "policy = ",
        "max_body = 1\nmax_body = 1",
        "[route",
        "\u{0}",
    ] {
        assert_refuses(&rt, rt.alloc(), text, ConfigFault::NotToml);
    }
    Ok(())
}
