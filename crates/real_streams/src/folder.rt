//! A folder of font files. What files it has isn't known.
ghost use Rattle.std.specs.Prelude.{◌≡◌};

use crate::fonts::OpenedFonts;
use crate::opener::Opener;
use outside::FileName;
use std::alloc::Global;
use std::io::{self, ErrorKind};
use std::path::PathBuf;
use std::rt::Files;
use std::{fs, str};

/// Opens the files of a folder. A name that isn't UTF-8 is an error, and so is a file that can't be
/// opened.
#[derive_where(Clone, Copy)]
pub struct FolderOpener<'a, R> {
    rt: &'a R,
    alloc: Global,
    folder: &'a PathBuf,
}

impl<'a, R> FolderOpener<'a, R> {
    /// Nothing is opened yet.
    pub fn new(rt: &'a R, alloc: Global, folder: &'a PathBuf) -> FolderOpener<'a, R> {
        FolderOpener { rt, alloc, folder }
    }
}

impl<'a, R: Files> Opener for FolderOpener<'a, R> {
    type File = R::File;

    fn open(&self, name: &FileName) -> io::Result<R::File> {
        let name = str::from_utf8(name.bytes()).map_err(|_| ErrorKind::InvalidInput)?;
        let path = self.folder.join(self.alloc, name)?;
        fs::open(self.rt, path)
    }
}

/// The font files of a folder.
pub type FolderFonts<'a, R> = OpenedFonts<FolderOpener<'a, R>>;

impl<'a, R: Files> OpenedFonts<FolderOpener<'a, R>> {
    /// No file was asked for yet.
    pub fn new(rt: &'a R, alloc: Global, folder: &'a PathBuf) -> FolderFonts<'a, R>
        ensures faults { result.faults ≡ 0 }
        ensures loads { result.loads ≡ 0 }
    {
        OpenedFonts::over(alloc, FolderOpener::new(rt, alloc, folder))
    }
}
