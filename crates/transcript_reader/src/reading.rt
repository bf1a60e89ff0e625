//! Files of rows, which are gone through.

ghost use Rattle.std.specs.Prelude.{◌≤◌, IfOk, IfSome};
ghost use Rattle.gateway.specs.Setups.{setup_of, IsServable};

use crate::judgements::difference;
use crate::rows::{Head, Row, find, head_of, transcript_of};
use crate::transcripts::Transcript;
use configuration::{ConfigFault, read_config};
use gateway::{Config, Route};
use std::alloc::{AllocError, Global};
use std::io::ErrorKind;
use std::{env, fs, io};

/// What was found in files so far.
#[derive(Drop)]
struct Found {
    rows: Vec<Row>,
    /// How many rows are run.
    run: u32,
    /// How often one was judged.
    judged: u32,
    /// How often something was wrong.
    wrong: u32,
}

/// Goes through the rows of the files that the arguments name, one after another. It prints the
/// name of each row that differs from what it says, with what was wanted and what came; where none
/// does, how many rows were run, and how often they were judged.
///
/// The status is 0 where no row differs, and 1 where one does, or isn't a row. It is 2 where a file
/// can't be read, nothing can be printed, or no memory was left.
pub fn go_through(rt: &HostRuntime) -> u8
    ensures { result ≤ 2 }
{
    match wrong_in_files(rt) {
        Ok(0) => 0,
        Ok(_) => 1,
        Err(_) => 2,
    }
}

/// How often something is wrong in the files that the arguments name.
fn wrong_in_files(rt: &HostRuntime) -> io::Result<u32> {
    let mut found = Found {
        rows: Vec::new(rt.alloc()),
        run: 0,
        judged: 0,
        wrong: 0,
    };
    for file in env::args(rt)?.skip(1) {
        let text = fs::read_to_string(rt, file)?;
        found.take_file(rt, &text)?;
    }
    if found.wrong == 0 {
        println!(rt; "{} rows, {} judgements", found.run, found.judged)?;
    }
    Ok(found.wrong)
}

/// The configuration of a file, or the default; none where a file can't be read or is none.
fn config_of(rt: &HostRuntime, file: &str) -> io::Result<Option<Config>>
    ensures { IfOk result (λ config. IfSome config (λ config. IsServable (setup_of config))) }
{
    if file == "default" {
        return Ok(Some(default_config(rt.alloc())?));
    }
    let text = match fs::read_to_string(rt, file) {
        Ok(text) => text,
        Err(error) if error.kind() == ErrorKind::OutOfMemory => return Err(error),
        Err(_) => return Ok(None),
    };
    match read_config(rt.alloc(), &text) {
        Ok(config) => Ok(Some(config)),
        Err(ConfigFault::Memory) => Err(AllocError.into()),
        Err(_) => Ok(None),
    }
}

/// The configuration of a replay without one.
fn default_config(alloc: Global) -> Result<Config, AllocError>
    ensures { IfOk result (λ config. IsServable (setup_of config)) }
{
    let route = Route {
        authority: Vec::new(alloc),
        prefix: Vec::from_slice(alloc, b"/")?,
        upstream: String::new(alloc),
    };
    Ok(Config::new(vec![in alloc; route]?))
}

impl Found {
    /// Goes through a file's text.
    fn take_file(&mut self, rt: &HostRuntime, text: &str) -> io::Result<()> {
        for paragraph in text.split("\n\n") {
            match head_of(paragraph) {
                Head::Nothing => {}
                Head::Row(name) => self.take_row(rt, name, paragraph, true)?,
                Head::Beginning(name) => self.take_row(rt, name, paragraph, false)?,
                Head::Unknown(line) => self.tell(rt, line, "no row")?,
            }
        }
        Ok(())
    }

    /// Says what is wrong with a row.
    fn tell(&mut self, rt: &HostRuntime, name: &str, what: &str) -> io::Result<()> {
        self.wrong = self.wrong.saturating_add(1);
        println!(rt; "{name}: {what}")
    }

    /// Takes a row in, and judges it if it is run.
    fn take_row(
        &mut self,
        rt: &HostRuntime,
        name: &str,
        paragraph: &str,
        is_run: bool,
    ) -> io::Result<()> {
        let alloc = rt.alloc();
        if find(&self.rows, name).is_some() {
            return self.tell(rt, name, "another row has this name");
        }
        let Some(transcript) = transcript_of(alloc, &self.rows, paragraph)? else {
            return self.tell(rt, name, "no row to begin with");
        };
        if is_run {
            self.run = self.run.saturating_add(1);
            self.judge_row(rt, name, paragraph, &transcript)?;
        }
        let name = String::from_str(alloc, name)?;
        self.rows
            .push(Row { name, transcript })
            .map_err(AllocError::from)?;
        Ok(())
    }

    /// Judges a row by each of its lines that name a configuration.
    fn judge_row(
        &mut self,
        rt: &HostRuntime,
        name: &str,
        paragraph: &str,
        transcript: &Transcript,
    ) -> io::Result<()> {
        let before = self.judged;
        for line in paragraph.lines() {
            if let Some(run) = line.strip_prefix("by ") {
                let (file, words) = run.split_once(": ").unwrap_or((run, ""));
                self.judge_by(rt, name, transcript, file, words)?;
            }
        }
        if self.judged == before {
            return self.tell(rt, name, "it isn't judged");
        }
        Ok(())
    }

    /// Judges a row by a configuration.
    fn judge_by(
        &mut self,
        rt: &HostRuntime,
        name: &str,
        transcript: &Transcript,
        file: &str,
        words: &str,
    ) -> io::Result<()> {
        let Some(config) = config_of(rt, file)? else {
            self.judged = self.judged.saturating_add(1);
            return self.tell(rt, name, "no configuration");
        };
        for word in words.split(' ') {
            self.judged = self.judged.saturating_add(1);
            if let Some(what) = difference(rt.alloc(), &config, transcript, word)? {
                self.wrong = self.wrong.saturating_add(1);
                println!(rt; "{name}, by {file}, {word}: {what}")?;
            }
        }
        Ok(())
    }
}
