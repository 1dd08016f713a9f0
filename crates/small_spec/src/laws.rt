// Laws about the definitions.
ghost use Rattle.std.specs.Prelude.{◌≡◌, ℕ, List};
ghost use Rattle.file_spec.specs.Files.{Files};
ghost use Rattle.format_spec.specs.PageMap.{file_pages, pages_of};
ghost use Rattle.update_spec.specs.Update.{IsDone};
ghost use Rattle.small_spec.specs.SmallFile.{IsSmallHeader};
ghost use Rattle.small_spec.specs.SmallUpdate.{IsFinished, small_inserts};

/// The pages of a small file by itself are its two pages of 4096 bytes.
pub fn small_file_has_two_pages()
    ensures { (bytes : List ℕ) → IsSmallHeader bytes → file_pages bytes ≡ pages_of 4096 2 bytes }
{}

/// An update that is finished to the byte is done: a reader sees the new database.
pub fn finished_is_done()
    ensures { (before after : Files) → IsFinished before after → IsDone small_inserts before after }
{}
