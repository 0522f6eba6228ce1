//! The output of the commands: standard output, files whose content is replaced, and drafts of such files. No clause
//! says what a file contains.
use crate::input::{Plain, plain_file};
use std::fs::{File, OpenOptions};
use std::io;
use std::io::{BufWriter, ErrorKind, Print, Printer, Read, Seek, Write};
use std::rt::Files;

/// How many bytes of a draft are copied at once.
const PIECE: usize = 65_536;

/// The greatest number of pieces of a draft.
const PIECES: u64 = 1 << 40;

/// The line for a write that failed.
const WRITE_FAILED: &[u8] = b"failed: write\n";

/// The line for a draft, or a copy, that could not be written or not be read again.
const COPY_FAILED: &[u8] = b"failed: temporary copy\n";

/// A writer that knows what failed.
pub trait Output {
    /// The line that reports why it failed last.
    fn failure(&self) -> &'static [u8];
}

/// A file whose old bytes are dropped at the first write or flush, and kept where neither happens.
#[derive(Drop)]
pub struct RecreatedFile {
    file: File,
    is_begun: bool,
    is_new: bool,
}

impl RecreatedFile {
    /// Opens the file with this name, and creates an empty one where there is none.
    pub fn open<R: Files<File = File>>(rt: &R, name: &str) -> io::Result<RecreatedFile> {
        if let Ok(file) = File::create_new(rt, name) {
            return Ok(RecreatedFile {
                file,
                is_begun: false,
                is_new: true,
            });
        }
        let mut options = OpenOptions::new();
        options.write(true).create(true);
        let file = options.open(rt, name)?;
        Ok(RecreatedFile {
            file,
            is_begun: false,
            is_new: false,
        })
    }

    /// The identity of the file, if it is a plain one.
    pub fn plain(&self) -> Option<Plain> {
        plain_file(self.file.metadata())
    }

    /// Whether the file was created and nothing was written to it.
    pub fn is_idle(&self) -> bool {
        self.is_new && !self.is_begun
    }

    /// Drops the old bytes. A file that is not plain, such as a pipe, has none.
    pub fn begin(&mut self) -> io::Result<()> {
        if self.is_begun {
            return Ok(());
        }
        let metadata = self.file.metadata()?;
        if metadata.is_file() {
            self.file.set_len(0)?;
        }
        self.is_begun = true;
        Ok(())
    }
}

impl Write for RecreatedFile {
    fn write(&mut self, buf: &[u8]) -> io::Result<usize> {
        self.begin()?;
        self.file.write(buf)
    }

    fn flush(&mut self) -> io::Result<()> {
        self.begin()?;
        self.file.flush()
    }
}

/// The content of a file that is written only when it is complete: until it is flushed it is kept in another file.
#[derive(Drop)]
pub struct DraftFile {
    waiting: BufWriter<File>,
    output: RecreatedFile,
    is_copy_at_fault: bool,
}

impl DraftFile {
    /// An empty draft of that output. What is written is kept in `waiting`, an empty file that can be read.
    pub fn new(waiting: BufWriter<File>, output: RecreatedFile) -> DraftFile {
        DraftFile {
            waiting,
            output,
            is_copy_at_fault: false,
        }
    }

    /// The output, as it is.
    pub fn into_output(self) -> RecreatedFile {
        self.output
    }

    /// Copies the draft's content to the output, piece by piece.
    fn hand_on(&mut self) -> io::Result<()> {
        let mut piece = [0u8; PIECE];
        for _ in 0..PIECES {
            let answer = self.waiting.get_mut().read(&mut piece);
            self.is_copy_at_fault = answer.is_err();
            let count = answer?;
            if count == 0 {
                break;
            }
            self.output.write_all(&piece[..count])?;
        }
        self.output.flush()
    }
}

impl Write for DraftFile {
    fn write(&mut self, buf: &[u8]) -> io::Result<usize> {
        let answer = self.waiting.write(buf);
        self.is_copy_at_fault = answer.is_err();
        answer
    }

    /// Copies the whole draft to the output. It is called once.
    fn flush(&mut self) -> io::Result<()> {
        let answer = self.waiting.flush();
        self.is_copy_at_fault = answer.is_err();
        answer?;
        let answer = self.waiting.get_mut().rewind();
        self.is_copy_at_fault = answer.is_err();
        answer?;
        self.hand_on()
    }
}

/// The writer for the trace or the picture that a command makes.
#[derive(Drop)]
pub enum MadeFile<'r, R: Print> {
    /// The command makes neither.
    Nothing,
    /// Standard output.
    Standard(Printer<'r, R>),
    /// Standard output, with a buffer.
    Gathered(BufWriter<Printer<'r, R>>),
    /// A file.
    File(RecreatedFile),
    /// A file that is written only when all is there.
    DraftFile(DraftFile),
}

impl<R: Print> Write for MadeFile<'_, R> {
    fn write(&mut self, buf: &[u8]) -> io::Result<usize> {
        match self {
            MadeFile::Nothing => Err(io::Error::from(ErrorKind::Unsupported)),
            MadeFile::Standard(writer) => writer.write(buf),
            MadeFile::Gathered(writer) => writer.write(buf),
            MadeFile::File(file) => file.write(buf),
            MadeFile::DraftFile(draft) => draft.write(buf),
        }
    }

    fn flush(&mut self) -> io::Result<()> {
        match self {
            MadeFile::Nothing => Ok(()),
            MadeFile::Standard(writer) => writer.flush(),
            MadeFile::Gathered(writer) => writer.flush(),
            MadeFile::File(file) => file.flush(),
            MadeFile::DraftFile(draft) => draft.flush(),
        }
    }
}

impl<R: Print> Output for MadeFile<'_, R> {
    fn failure(&self) -> &'static [u8] {
        match self {
            MadeFile::DraftFile(draft) if draft.is_copy_at_fault => COPY_FAILED,
            _ => WRITE_FAILED,
        }
    }
}

/// Where the command prints: standard output, or standard error where what it makes goes to standard output.
#[derive(Drop)]
pub enum Printed<'r, R: Print, E> {
    Output(Printer<'r, R>),
    Errors(E),
}

impl<R: Print, E: Write> Write for Printed<'_, R, E> {
    fn write(&mut self, buf: &[u8]) -> io::Result<usize> {
        match self {
            Printed::Output(writer) => writer.write(buf),
            Printed::Errors(writer) => writer.write(buf),
        }
    }

    fn flush(&mut self) -> io::Result<()> {
        match self {
            Printed::Output(writer) => writer.flush(),
            Printed::Errors(writer) => writer.flush(),
        }
    }
}
