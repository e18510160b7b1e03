//! `Pack`: what the cases have of one kind, such as their scripts, in one file.

use crate::comparing::lines;
use std::alloc::{AllocError, Global};
use std::collections::BTreeMap;
use std::{fs, io};

/// What a line that names a case begins with. The lines after it are the case's text.
const MARK: &[u8] = b"== ";

/// The texts of one kind, each by the name of its case.
#[derive(Drop)]
pub struct Pack {
    texts: BTreeMap<String, Vec<u8>>,
}

impl Pack {
    /// Reads a pack in the current folder. A text is the lines between its name and the next one,
    /// with line ends between them: where it ends with one, an empty line follows.
    pub fn open(rt: &HostRuntime, alloc: Global, path: &str) -> io::Result<Pack> {
        let bytes = fs::read(rt, path)?;
        // the end of the last line is no part of a text
        let Some(body) = bytes.strip_suffix(b"\n") else {
            return Err(io::Error::other("a pack ends without a line end"));
        };
        let all = lines(alloc, body)?;
        let mut texts = BTreeMap::new(alloc);
        for part in all.chunk_by(|_, next| !next.starts_with(MARK)) {
            let Some((name, text)) = named(alloc, part)? else {
                return Err(io::Error::other("a pack begins without a name"));
            };
            if texts.insert(name, text)?.is_some() {
                return Err(io::Error::other("a pack has a name twice"));
            }
        }
        Ok(Pack { texts })
    }

    /// The names of its cases, in order.
    pub fn names(&self, alloc: Global) -> Result<Vec<&str>, AllocError> {
        let mut names = Vec::new(alloc);
        for name in self.texts.keys() {
            names.push(name.as_str())?;
        }
        Ok(names)
    }

    /// The text of the case of this name; the empty text if there is none.
    pub fn text(&self, name: &str) -> &[u8] {
        let Some(text) = self.texts.get(name) else {
            return b"";
        };
        text.as_slice()
    }
}

// The name in the first of these lines, and the text of the others; none if that line has no name.
fn named(alloc: Global, lines: &[&[u8]]) -> Result<Option<(String, Vec<u8>)>, AllocError> {
    let Some((first, others)) = lines.split_first() else {
        return Ok(None);
    };
    let Some(word) = first.strip_prefix(MARK) else {
        return Ok(None);
    };
    let Ok(word) = str::from_utf8(word) else {
        return Ok(None);
    };
    let name = String::from_str(alloc, word)?;
    Ok(Some((name, text_of(alloc, others)?)))
}

// These lines, with line ends between them.
fn text_of(alloc: Global, lines: &[&[u8]]) -> Result<Vec<u8>, AllocError> {
    let mut text = Vec::new(alloc);
    for line in lines {
        text.extend_from_slice(line)?;
        text.push(b'\n')?;
    }
    // there is none after the last line
    text.pop();
    Ok(text)
}
