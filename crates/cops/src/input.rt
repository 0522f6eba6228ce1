//! The input of a command: a file, or standard input. No clause says what a file contains.
use std::fs::{File, Metadata};
use std::io::{ErrorKind, Input, Read};
use std::os::unix::fs::MetadataExt;
use std::rt::Files;
use std::{fs, io};

/// The path of the file that is open as standard input.
const STANDARD_INPUT: &str = "/proc/self/fd/0";

/// The path of the file that is open as standard output.
const STANDARD_OUTPUT: &str = "/proc/self/fd/1";

/// The identity of a plain file, whatever name it was opened by.
#[derive(Clone, Copy, Debug, PartialEq, Eq)]
pub struct Plain {
    device: u64,
    inode: u64,
}

/// The identity of a file, if it is a plain one. Nothing is lost by writing to a pipe, a terminal or a device.
pub fn plain_file(metadata: io::Result<Metadata>) -> Option<Plain> {
    match metadata {
        Ok(metadata) if metadata.is_file() => Some(Plain {
            device: metadata.dev(),
            inode: metadata.ino(),
        }),
        _ => None,
    }
}

/// Whether it is a plain file, which can be read twice, and may grow.
pub fn is_plain(file: &File) -> bool {
    match file.metadata() {
        Ok(metadata) => metadata.is_file(),
        Err(_) => false,
    }
}

/// The identity of standard output, if it is a plain file.
pub fn plain_output<R: Files>(rt: &R) -> Option<Plain> {
    plain_file(fs::metadata(rt, STANDARD_OUTPUT))
}

/// The input of a command.
#[derive(Drop)]
pub enum Source<S> {
    File(File),
    Standard(S),
}

impl<S: Read> Source<S> {
    /// Opens the file with this name, or standard input where the name is `-`.
    pub fn open<R>(rt: &R, name: &str) -> io::Result<Source<S>>
    where
        R: Files<File = File> + Input<Reader = S>,
    {
        if name == "-" {
            return Ok(Source::Standard(rt.reader()));
        }
        let file = File::open(rt, name)?;
        Ok(Source::File(file))
    }

    /// The identity of the input, if it is a plain file.
    pub fn plain<R: Files>(&self, rt: &R) -> Option<Plain> {
        match self {
            Source::File(file) => plain_file(file.metadata()),
            Source::Standard(_) => plain_file(fs::metadata(rt, STANDARD_INPUT)),
        }
    }
}

impl<S: Read> Read for Source<S> {
    fn read(&mut self, buf: &mut [u8]) -> io::Result<usize> {
        match self {
            Source::File(file) => file.read(buf),
            Source::Standard(input) => input.read(buf),
        }
    }
}

/// An input that is still being written. The end of a plain file that is no standard input may move: a read there fails
/// as one that would block.
#[derive(Drop)]
pub struct Growing<S> {
    source: Source<S>,
    may_grow: bool,
}

impl<S: Read> Growing<S> {
    pub fn new(source: Source<S>) -> Growing<S> {
        let may_grow = match &source {
            Source::File(file) => is_plain(file),
            Source::Standard(_) => false,
        };
        Growing { source, may_grow }
    }
}

impl<S: Read> Read for Growing<S> {
    fn read(&mut self, buf: &mut [u8]) -> io::Result<usize> {
        match self.source.read(buf) {
            Ok(0) if self.may_grow => Err(io::Error::from(ErrorKind::WouldBlock)),
            answer => answer,
        }
    }
}
