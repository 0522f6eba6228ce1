//! The lines of an import as a file that can be read twice: the file with their name, or a copy of what is read from
//! standard input or a pipe. No clause says what a file contains.
use cops_command::Status;
use std::fs::{File, OpenOptions};
use std::io::{ErrorKind, Read, Seek, Write};
use std::os::unix::fs::OpenOptionsExt;
use std::rt::{Env, Files};
use std::{env, fs, io};

/// How the name of a copy, or of a draft, begins; it ends with the number of the process.
const COPY: &str = "cops-lines-";

/// The mode of a copy, which only its owner may read and write.
const MODE: u32 = 0o600;

/// How many bytes a read asks for.
const PIECE: usize = 65_536;

/// The greatest number of reads.
const READS: u64 = 1 << 40;

/// Why there is no such file.
#[derive(Clone, Copy, Debug, PartialEq, Eq)]
pub enum NoLines {
    /// Memory ran out.
    Memory,
    /// The copy could not be created.
    Create,
    /// The input of the copy could not be read, or the file could not be read again.
    Read,
    /// The copy could not be written.
    Copy,
    /// The input of the copy did not end within 2^40 reads.
    Endless,
}

impl NoLines {
    /// The word for the fault in the program's message.
    pub fn word(self) -> &'static str {
        match self {
            NoLines::Memory => "memory",
            NoLines::Create => "create",
            NoLines::Read => "read",
            NoLines::Copy => "temporary copy",
            NoLines::Endless => "endless",
        }
    }

    /// The status with which the fault ends the program.
    pub fn status(self) -> Status {
        match self {
            NoLines::Memory => Status::NoMemory,
            _ => Status::Failed,
        }
    }
}

/// The fault for a file that was not created: `Memory`, where an allocation failed, and otherwise `Create`.
fn not_created(fault: io::Error) -> NoLines {
    match fault.kind() {
        ErrorKind::OutOfMemory => NoLines::Memory,
        _ => NoLines::Create,
    }
}

/// The file at its beginning again. The error is `Read`, where that fails.
pub fn rewound(mut file: File) -> Result<File, NoLines> {
    match file.rewind() {
        Ok(()) => Ok(file),
        Err(_) => Err(NoLines::Read),
    }
}

/// A copy of all that is read, at its beginning. The errors: those of `created`, `Read` where a read fails or the copy
/// cannot be read again, `Copy` where a write fails, and `Endless` where the input does not end within 2^40 reads.
pub fn copied<R, I>(rt: &R, input: &mut I, process: u32) -> Result<File, NoLines>
where
    R: Files<File = File> + Env + AllocGlobal,
    I: Read,
{
    let mut copy = created(rt, process)?;
    let mut piece = [0u8; PIECE];
    for _ in 0..READS {
        let Ok(count) = input.read(&mut piece) else {
            return Err(NoLines::Read);
        };
        if count == 0 {
            return rewound(copy);
        }
        if copy.write_all(&piece[..count]).is_err() {
            return Err(NoLines::Copy);
        }
    }
    Err(NoLines::Endless)
}

/// An empty file without a name, in the folder that TMPDIR names, or otherwise in `/tmp`. It is created with a new
/// name, which is removed while it is open, so that the system deletes the file however the program ends. The errors:
/// `Memory` where an allocation fails, and `Create` where the file cannot be created or its name not be removed.
pub fn created<R>(rt: &R, process: u32) -> Result<File, NoLines>
where
    R: Files<File = File> + Env + AllocGlobal,
{
    let mut path = match env::temp_dir(rt) {
        Ok(path) => path,
        Err(fault) => return Err(not_created(fault)),
    };
    let Ok(name) = format!(in rt.alloc(); "{COPY}{process}") else {
        return Err(NoLines::Memory);
    };
    if path.push(name).is_err() {
        return Err(NoLines::Memory);
    }
    let mut options = OpenOptions::new();
    options.read(true).write(true).create_new(true).mode(MODE);
    let file = match options.open(rt, path.as_path()) {
        Ok(file) => file,
        Err(fault) => return Err(not_created(fault)),
    };
    match fs::remove_file(rt, path.as_path()) {
        Ok(()) => Ok(file),
        Err(fault) => Err(not_created(fault)),
    }
}
