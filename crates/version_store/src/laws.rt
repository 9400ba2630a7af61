//! Laws of the files of entries.

ghost use Rattle.version_store.specs.Laws.{FilesAreReadAgain};

use row_codec::rows_have_one_spelling;

/// A law: what was put into a file is read again, content and rows.
pub fn files_are_read_again()
    ensures law { FilesAreReadAgain }
{
    rows_have_one_spelling();
}
