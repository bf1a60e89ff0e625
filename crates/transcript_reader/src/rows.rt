//! Rows of a file.

use crate::transcripts::Transcript;
use std::alloc::{AllocError, Global};

/// A row that was read.
#[derive(Drop)]
pub struct Row {
    pub name: String,
    pub transcript: Transcript,
}

/// What the head of a paragraph says.
#[derive(Clone, Copy)]
pub enum Head<'a> {
    /// It has no line, or comments alone.
    Nothing,
    /// It is a row of this name, which is run.
    Row(&'a str),
    /// It is a row of this name, with which others begin.
    Beginning(&'a str),
    /// It begins with this line, which is none of these.
    Unknown(&'a str),
}

/// What the head of a paragraph says: the first line that is no comment.
pub(crate) fn head_of(paragraph: &str) -> Head<'_> {
    for line in paragraph.lines() {
        if let Some(name) = line.strip_prefix("row ") {
            return Head::Row(name);
        }
        if let Some(name) = line.strip_prefix("beginning ") {
            return Head::Beginning(name);
        }
        if !line.is_empty() && !line.starts_with('#') {
            return Head::Unknown(line);
        }
    }
    Head::Nothing
}

/// What a row of a paragraph begins with, by its name.
fn beginning_of(paragraph: &str) -> Option<&str> {
    for line in paragraph.lines() {
        if let Some(name) = line.strip_prefix("begins ") {
            return Some(name);
        }
    }
    None
}

/// The row of this name.
pub(crate) fn find<'a>(rows: &'a [Row], name: &str) -> Option<&'a Row> {
    for row in rows {
        if row.name.as_str() == name {
            return Some(row);
        }
    }
    None
}

/// The transcript of a paragraph's row behind what it begins with; none where that isn't among these rows.
pub(crate) fn transcript_of(
    alloc: Global,
    rows: &[Row],
    paragraph: &str,
) -> Result<Option<Transcript>, AllocError> {
    let mut transcript = match beginning_of(paragraph) {
        None => Transcript::new(alloc),
        Some(name) => match find(rows, name) {
            None => return Ok(None),
            Some(row) => row.transcript.copy(alloc)?,
        },
    };
    transcript.push_row(alloc, paragraph)?;
    Ok(Some(transcript))
}
