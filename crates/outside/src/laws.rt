//! What equality and copies of names and keys come to.
ghost use Rattle.std.specs.Prelude.{◌≡◌, ◌↔◌, IfOk, IsTrue};

use crate::{FileName, FontKey, FontName};
use std::alloc::AllocError as NoMemory;

/// Two keys are equal exactly where their areas, names, sizes and design sizes are.
pub fn are_equal_keys(a: &FontKey, b: &FontKey) -> bool
    ensures { IsTrue result ↔ (a.now ≡ b.now) }
{
    a == b
}

/// Two names of fonts are equal exactly where their bytes are.
pub fn are_equal_fonts(a: &FontName, b: &FontName) -> bool
    ensures { IsTrue result ↔ (a.now ≡ b.now) }
{
    a == b
}

/// Two names of files are equal exactly where their bytes are.
pub fn are_equal_files(a: &FileName, b: &FileName) -> bool
    ensures { IsTrue result ↔ (a.now ≡ b.now) }
{
    a == b
}

/// A clone of a key is equal to it.
pub fn key_again(key: &FontKey) -> Result<FontKey, NoMemory>
    ensures { IfOk result (λ k. k ≡ key.now) }
{
    key.clone()
}

/// A clone of a font's name is equal to it.
pub fn font_again(name: &FontName) -> Result<FontName, NoMemory>
    ensures { IfOk result (λ n. n ≡ name.now) }
{
    name.clone()
}

/// A clone of a file's name is equal to it.
pub fn file_again(name: &FileName) -> Result<FileName, NoMemory>
    ensures { IfOk result (λ n. n ≡ name.now) }
{
    name.clone()
}
