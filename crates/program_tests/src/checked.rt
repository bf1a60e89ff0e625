//! What is said of a configuration that is checked.

use h2gw_setup::checks::check_text;
use std::alloc::Global;
use std::cell::RefCell;
use std::fmt::Display;
use std::io;
use std::io::{Eprint, ErrorKind, Print};
use std::test::*;

/// What a program printed, on standard output and on standard error.
#[derive(Drop)]
struct Terminal {
    alloc: Global,
    printed: RefCell<String>,
    complained: RefCell<String>,
}

impl Terminal {
    /// Nothing was printed yet.
    fn new(alloc: Global) -> Terminal {
        Terminal {
            alloc,
            printed: RefCell::new(String::new(alloc)),
            complained: RefCell::new(String::new(alloc)),
        }
    }

    /// Adds a text, and what ends it, to what was printed.
    fn add<D: Display + Drop>(&self, to: &RefCell<String>, value: D, end: &str) -> io::Result<()> {
        let Ok(mut text) = to.try_borrow_mut() else {
            return Err(io::Error::from(ErrorKind::Unsupported));
        };
        let value = format!(in self.alloc; "{value}{end}")?;
        text.push_str(&value)?;
        Ok(())
    }
}

impl Print for Terminal {
    fn print<D: Display + Drop>(&self, value: D) -> io::Result<()> {
        self.add(&self.printed, value, "")
    }

    fn println<D: Display + Drop>(&self, value: D) -> io::Result<()> {
        self.add(&self.printed, value, "\n")
    }

    fn write_all(&self, _bytes: &[u8]) -> io::Result<()> {
        Err(io::Error::from(ErrorKind::Unsupported))
    }
}

impl Eprint for Terminal {
    fn eprint<D: Display + Drop>(&self, value: D) -> io::Result<()> {
        self.add(&self.complained, value, "")
    }

    fn eprintln<D: Display + Drop>(&self, value: D) -> io::Result<()> {
        self.add(&self.complained, value, "\n")
    }
}

/// A text that is checked for so many clients, and what is said of it, with which status.
struct Case {
    text: &'static str,
    clients: u32,
    status: u8,
    printed: &'static str,
    complained: &'static str,
}

static CASES: [Case; 12] = [
    // The defaults, and no route.
    Case {
        text: "",
        clients: 1,
        status: 0,
        printed: "policy = \"plain\"\npassing = \"whole\"\nmax_body = 1048576\nmax_response = 1048576\n\
                  keep = false\nidle = 8\nwindow = 65535\nno route: each request is answered with 404\n\
                  clients at once, at most: 1\noctets held for them, at most: 249915200\n\
                  connections to servers, at most: 100\nopen files, at most: 111\n",
        complained: "",
    },
    // Each key, and two routes, for 200 clients.
    Case {
        text: "policy = \"indexing\"\npassing = \"streaming\"\nmax_body = 65536\nmax_response = 0\nkeep = true\n\
               idle = 100\nwindow = 1048576\n[[route]]\nauthority = \"a.example\"\nprefix = \"/x\\u0007\"\n\
               upstream = \"127.0.0.1:8081\"\n[[route]]\nprefix = \"/\"\nupstream = \"[::1]:80\"\n",
        clients: 200,
        status: 0,
        printed: "policy = \"indexing\"\npassing = \"streaming\"\nmax_body = 65536\nmax_response = 0\n\
                  keep = true\nidle = 100\nwindow = 1048576\n\
                  route 1: authority \"a.example\", prefix \"/x\\u{7}\", to 127.0.0.1:8081\n\
                  route 2: any authority, prefix \"/\", to [::1]:80\n\
                  clients at once, at most: 200\noctets held for them, at most: 9350720000\n\
                  connections to servers, at most: 40000\nopen files, at most: 40210\n",
        complained: "",
    },
    // No TOML: the place is told.
    Case {
        text: "keep = true\nidle = \n",
        clients: 1,
        status: 1,
        printed: "",
        complained: "config: not TOML\nTOML parse error at line 2, column 8\n\
                     invalid value, expected a string, number, boolean, date-time, array or inline table\n",
    },
    // A key with a wrong value, and one in the wrong form.
    Case {
        text: "max_body = -1\n",
        clients: 1,
        status: 1,
        printed: "",
        complained: "config: bad max_body\nmax_body takes a whole number from 0 to 1073741824, and is -1\n",
    },
    Case {
        text: "policy = \"huffman\"\n",
        clients: 1,
        status: 1,
        printed: "",
        complained: "config: bad policy\npolicy takes \"plain\" or \"indexing\", and is \"huffman\"\n",
    },
    Case {
        text: "route = 1\n",
        clients: 1,
        status: 1,
        printed: "",
        complained: "config: bad route\nroute takes tables, each headed [[route]], and is 1\n",
    },
    // A key of the second route: a wrong value, or none.
    Case {
        text: "[[route]]\nprefix = \"/a\"\nupstream = \"127.0.0.1:8081\"\n\
               [[route]]\nprefix = \"/\"\nupstream = \"localhost:80\"\n",
        clients: 1,
        status: 1,
        printed: "",
        complained: "config: bad upstream\nroute 2: upstream takes a numeric address and port, as \"127.0.0.1:8080\", \
                     and is \"localhost:80\"\n",
    },
    Case {
        text: "[[route]]\nprefix = \"/a\"\nupstream = \"127.0.0.1:8081\"\n[[route]]\nupstream = \"127.0.0.1:8082\"\n",
        clients: 1,
        status: 1,
        printed: "",
        complained: "config: bad prefix\nroute 2: prefix is missing: it takes a text that begins with \"/\"\n",
    },
    Case {
        text: "[[route]]\nprefix = \"/a\"\nupstream = \"127.0.0.1:8081\"\n\
               [[route]]\nprefix = \"a\"\nupstream = \"127.0.0.1:8082\"\n",
        clients: 1,
        status: 1,
        printed: "",
        complained: "config: bad prefix\nroute 2: prefix takes a text that begins with \"/\", and is \"a\"\n",
    },
    Case {
        text: "[[route]]\nauthority = 1\nprefix = \"/\"\nupstream = \"127.0.0.1:8082\"\n",
        clients: 1,
        status: 1,
        printed: "",
        complained: "config: bad authority\nroute 1: authority takes a text, and is 1\n",
    },
    // Keys that nobody knows, in the table and in a route.
    Case {
        text: "colour = 1\nmax_bodies = 1\n",
        clients: 1,
        status: 1,
        printed: "",
        complained: "config: unknown key\nunknown: colour\nunknown: max_bodies\n",
    },
    Case {
        text: "[[route]]\nprefix = \"/\"\nupstream = \"127.0.0.1:8082\"\nserver = \"\"\n",
        clients: 1,
        status: 1,
        printed: "",
        complained: "config: unknown key\nroute 1: unknown: server\n",
    },
];

/// Whether this was printed.
fn is_printed(printed: &RefCell<String>, text: &str) -> bool {
    match printed.try_borrow() {
        Ok(found) => found.as_str() == text,
        Err(_) => false,
    }
}

/// Whether that is said of a text.
fn is_said(alloc: Global, case: &Case) -> bool {
    if case.clients > 1024 {
        return false;
    }
    let terminal = Terminal::new(alloc);
    match check_text(&(&terminal, alloc), case.text, case.clients) {
        Ok(status) => {
            status == case.status
                && is_printed(&terminal.printed, case.printed)
                && is_printed(&terminal.complained, case.complained)
        }
        Err(_) => false,
    }
}

#[test]
fn it_is_said_what_a_configuration_sets(rt: HostRuntime) {
    for case in &CASES {
        assert!(rt; is_said(rt.alloc(), case), "{}", case.text);
    }
}
