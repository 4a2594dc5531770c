//! That a contract fixes its answer.

ghost use Rattle.std.specs.Prelude.{◌≡◌, ℕ, Result};
ghost use Rattle.format_spec.specs.Bytes.{Bytes};
ghost use Rattle.disk_model.specs.Files.{Files};
ghost use Rattle.page_file.specs.declared.error.PageError.{PageError};
ghost use Rattle.page_file.specs.Errors.{IsAnswered};
ghost use Rattle.page_file.specs.Files.{NumberedFile, IsAsKnown, Opens, ReadsAs};

/// Over the same files `PageFile::open` has one answer, but for faults and want of memory.
pub fn open_has_one_answer()
    ensures { (files : Files) (number : ℕ) (one other : Result NumberedFile PageError)
        → Opens files number one → Opens files number other → IsAnswered one → IsAnswered other → one ≡ other }
{}

/// Over the same files `PageFile::read_page` fills the page in one way.
pub fn a_page_reads_as_one()
    ensures { (files : Files) (file : NumberedFile) (place : ℕ) (one other : Bytes)
        → IsAsKnown files file → ReadsAs files file place one → ReadsAs files file place other → one ≡ other }
{}
