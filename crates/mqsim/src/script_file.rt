//! The file of a script.

ghost use Rattle.std.specs.Prelude.{◌≡◌, IsErrAnd, IsOk};
ghost use Rattle.std.specs.Fs.{IsDir, file_type};
ghost use Rattle.std.specs.IoError.{error_kind};

use std::fs::{Metadata, OpenFile};
use std::io::ErrorKind;
use std::rt::Files;
use std::{fs, io};

/// Opens a script's file, to be read. An `Err` is what the system says of the name, or that it is a
/// directory's.
pub fn open_script<R: Files>(rt: &R, name: &str) -> io::Result<R::File> {
    let file = fs::open(rt, name)?;
    refuse_directory(&file.metadata()?)?;
    Ok(file)
}

/// A directory, which the system opens too, is no script.
fn refuse_directory(found: &Metadata) -> io::Result<()>
    ensures directory { IsDir (file_type found.now) →
        IsErrAnd result (λ e. error_kind e ≡ ErrorKind.IsADirectory) }
    ensures other { ¬ IsDir (file_type found.now) → IsOk result }
{
    if found.is_dir() {
        return Err(io::Error::from(ErrorKind::IsADirectory));
    }
    Ok(())
}
