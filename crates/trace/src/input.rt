// The images that are traced, and where they are read from.
use anyhow::Context;
use report::MOST_BYTES;
use std::alloc::Global;
use std::fs::File;
use std::io::Read;
use std::rt::Files;
use std::{fmt, io};

/// Where an image is read from, displayed as its name (docs/trace.md).
#[derive(Clone, Copy)]
pub enum Source<'a> {
    /// Standard input.
    StandardInput,
    /// The file of this name.
    File(&'a str),
}

impl fmt::Display for Source<'_> {
    fn fmt<W: fmt::Write>(&self, f: &mut fmt::Formatter<W>) -> fmt::Result {
        f.write_str(match self {
            Source::StandardInput => "standard input",
            Source::File(name) => name,
        })
    }
}

// The bytes of a reader, up to one more than are read of an image.
fn first_bytes<R: Read + Drop>(heap: Global, reader: R) -> io::Result<Vec<u8>> {
    let mut bytes = Vec::new(heap);
    reader.take(MOST_BYTES as u64 + 1).read_to_end(&mut bytes)?;
    Ok(bytes)
}

impl<'a> Source<'a> {
    /// What an argument names: `-` is standard input.
    pub fn named(argument: &'a str) -> Source<'a> {
        match argument {
            "-" => Source::StandardInput,
            name => Source::File(name),
        }
    }

    // Its bytes, up to one more than are read of an image.
    fn first_bytes<R: Input + Files + AllocGlobal>(self, rt: &R) -> io::Result<Vec<u8>> {
        match self {
            Source::StandardInput => first_bytes(rt.alloc(), rt.reader()),
            Source::File(name) => first_bytes(rt.alloc(), File::open(rt, name)?),
        }
    }

    /// The bytes of the image. Where there are more than are read, that is told on standard error (docs/trace.md).
    pub fn image<R: Input + Files + Eprint + AllocGlobal>(self, rt: &R) -> anyhow::Result<Vec<u8>> {
        let mut bytes = self
            .first_bytes(rt)
            .context(format_args!("reading {self}"))?;
        if bytes.len() > MOST_BYTES {
            eprintln!(rt; "{self} is longer than {MOST_BYTES} bytes: only these were read")?;
            bytes.truncate(MOST_BYTES);
        }
        Ok(bytes)
    }
}
