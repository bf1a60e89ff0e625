//! Transcripts: events, and under each what it puts out.

use crate::notation::push_octets;
use std::alloc::{AllocError, Global};

/// The events of a row as a script, and the lines that each of them puts out.
#[derive(Drop)]
pub struct Transcript {
    pub script: String,
    pub wanted: Vec<String>,
}

/// Lines that are repeated: how often, and by which stream and which connection at first.
#[derive(Clone, Copy)]
struct Repetition {
    count: u32,
    id: u32,
    k: u32,
}

/// The repetition that the words behind `repeat` say.
fn repetition_of(words: &str) -> Option<Repetition> {
    let (count, rest) = words.split_once(" {id} ")?;
    let (id, k) = rest.split_once(" {k} ")?;
    Some(Repetition {
        count: count.parse().ok()?,
        id: id.parse().ok()?,
        k: k.parse().ok()?,
    })
}

/// Whether a line says something of a row, and not what happens in it.
fn is_heading(line: &str) -> bool {
    line.is_empty()
        || line.starts_with('#')
        || line.starts_with("row ")
        || line.starts_with("beginning ")
        || line.starts_with("begins ")
        || line.starts_with("by ")
}

/// Adds a line of a script or of what it prints.
fn push_line(alloc: Global, line: &str, text: &mut String) -> Result<(), AllocError> {
    if let Some(octets) = line.strip_prefix("C ") {
        text.push_str("C ")?;
        push_octets(alloc, octets, text)?;
    } else if let Some((k, octets)) = line
        .strip_prefix("U ")
        .and_then(|rest| rest.split_once(' '))
    {
        write!(text, "U {k} ")?;
        push_octets(alloc, octets, text)?;
    } else {
        text.push_str(line)?;
    }
    text.push_str("\n")
}

impl Transcript {
    /// Nothing happened.
    pub(crate) fn new(alloc: Global) -> Transcript {
        Transcript {
            script: String::new(alloc),
            wanted: Vec::new(alloc),
        }
    }

    /// The same once more.
    pub(crate) fn copy(&self, alloc: Global) -> Result<Transcript, AllocError> {
        let mut wanted = Vec::with_capacity(alloc, self.wanted.len())?;
        for lines in &self.wanted {
            wanted.push(lines.clone()?)?;
        }
        Ok(Transcript {
            script: self.script.clone()?,
            wanted,
        })
    }

    /// Adds what happens in a row.
    pub(crate) fn push_row(&mut self, alloc: Global, row: &str) -> Result<(), AllocError> {
        let mut parts = row.split("\nrepeat ");
        self.push_lines(alloc, parts.next().unwrap_or(""))?;
        for part in parts {
            let (repeated, rest) = part.split_once("\nend").unwrap_or((part, ""));
            self.push_repeated(alloc, repeated)?;
            self.push_lines(alloc, rest)?;
        }
        Ok(())
    }

    /// Adds lines, each once.
    fn push_lines(&mut self, alloc: Global, lines: &str) -> Result<(), AllocError> {
        for line in lines.lines() {
            if !is_heading(line) {
                self.push_line(alloc, line)?;
            }
        }
        Ok(())
    }

    /// Adds lines as often as the words before them say.
    fn push_repeated(&mut self, alloc: Global, repeated: &str) -> Result<(), AllocError> {
        let (words, lines) = repeated.split_once('\n').unwrap_or((repeated, ""));
        let Some(repetition) = repetition_of(words) else {
            return self.script.push_str("repeat\n");
        };
        for place in 0..repetition.count {
            let id = repetition.id.saturating_add(place.saturating_mul(2));
            let k = repetition.k.saturating_add(place);
            self.push_numbered(alloc, lines, id, k)?;
        }
        Ok(())
    }

    /// Adds lines with the numbers of a stream and of a connection.
    fn push_numbered(
        &mut self,
        alloc: Global,
        lines: &str,
        id: u32,
        k: u32,
    ) -> Result<(), AllocError> {
        let id = format!(in alloc; "{id:08x}")?;
        let k = format!(in alloc; "{k}")?;
        for line in lines.lines() {
            let line = line.replace(alloc, "{id}", &id)?;
            let line = line.replace(alloc, "{k}", &k)?;
            self.push_line(alloc, &line)?;
        }
        Ok(())
    }

    /// Adds an event, or what the last event puts out. Where none came before, it is no script.
    fn push_line(&mut self, alloc: Global, line: &str) -> Result<(), AllocError> {
        if let Some(event) = line.strip_prefix("> ") {
            self.wanted.push(String::new(alloc))?;
            return push_line(alloc, event, &mut self.script);
        }
        match self.wanted.last_mut() {
            Some(lines) => push_line(alloc, line, lines),
            None => self.script.push_str("no event\n"),
        }
    }
}
