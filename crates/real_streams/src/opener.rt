//! Files that are opened by their names, and read up to a limit.
ghost use Rattle.std.specs.Prelude.{◌≡◌, Option, None, IfOk, IfSome};
ghost use Rattle.std.specs.Option.{option_map};
ghost use Rattle.std.specs.IoError.{error_kind};
ghost use Rattle.outside.specs.Library.{FileTable, IsFileOf};
ghost use Rattle.real_streams.specs.Files.{IsCut, IsOpened, cut_files};

use outside::{FileName, LoadStop};
use std::alloc::Global;
use std::io::{self, ErrorKind, Read};

// One byte more than a font file may have.
const MAX_FILE_READ: u64 = 8_388_609;

/// What opens files by their names.
pub trait Opener: Drop {
    /// A file that is open.
    type File: Read + Drop;

    /// All the files, where they are known.
    ghost files: { Self → Option FileTable } = { λ _. None };

    /// Opens the file of exactly this name. Where there is none the error is `NotFound`, and where
    /// that is the error there is none.
    fn open(&self, name: &FileName) -> io::Result<Self::File>
        ensures { IfSome (files self.now) (λ table.
            IsOpened Self.File.remaining table name.now result) };
}

// All that a file has, of a long one no more than one byte more than a font file may have.
fn read_file<T: Read + Drop>(alloc: Global, file: T) -> io::Result<Vec<u8>>
    ensures { IfOk result (λ bytes. IsCut (T.remaining file) bytes.items) }
{
    let mut bytes = Vec::new(alloc);
    match file.take(MAX_FILE_READ).read_to_end(&mut bytes) {
        Ok(_) => Ok(bytes),
        Err(error) => Err(error),
    }
}

// Why a file wasn't loaded.
fn stop_of(error: &io::Error) -> LoadStop
    ensures { result ≡ LoadStop.NoMemory → error_kind error.now ≡ ErrorKind.OutOfMemory }
{
    match error.kind() {
        ErrorKind::OutOfMemory => LoadStop::NoMemory,
        _ => LoadStop::Failed,
    }
}

// The bytes of the file of exactly this name, of a long one no more than one byte more than a font
// file may have; `None` only where the opener says that there is no such file.
pub(crate) fn load_file<O: Opener>(
    alloc: Global,
    opener: &O,
    name: &FileName,
) -> Result<Option<Vec<u8>>, LoadStop>
    ensures { IfOk result (λ found. IsFileOf (option_map cut_files (O.files opener.now)) name.now
        (option_map (λ bytes. bytes.items) found)) }
{
    let file = match opener.open(name) {
        Ok(file) => file,
        Err(error) if error.kind() == ErrorKind::NotFound => return Ok(None),
        Err(error) => return Err(stop_of(&error)),
    };
    match read_file(alloc, file) {
        Ok(bytes) => Ok(Some(bytes)),
        Err(error) => Err(stop_of(&error)),
    }
}
