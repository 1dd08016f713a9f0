// Laws about the pages of a file.
ghost use Rattle.std.specs.Prelude.{◌≡◌, ◌<◌, ℕ, List, length, take, Some, None};
ghost use Rattle.file_spec.specs.declared.FileName.{FileName};
ghost use Rattle.file_spec.specs.declared.FileName.TheVariants.{Target, Wal};
ghost use Rattle.file_spec.specs.Files.{Files, content};
ghost use Rattle.format_spec.specs.PageMap.{SamePages, file_pages};
ghost use Rattle.db_header.specs.declared.fields.Header.{Header};
ghost use Rattle.db_header.specs.Reading.{IsHeaderOf};
ghost use Rattle.update_spec.specs.View.{IsOverlaidBy, IsView};
ghost use Rattle.wal_codec.specs.declared.log.Log.{Log};
ghost use Rattle.wal_codec.specs.LogReading.{HasLog};
ghost use Rattle.file_pages.specs.FileMap.{map_by};
ghost use Rattle.file_pages.specs.Overlay.{file_start, map_over, start_over};

/// By the header that is read of its first bytes a file has the pages that it has as a database.
pub fn file_has_these_pages()
    ensures { (bytes : List ℕ) (header : Header) → IsHeaderOf (take 100 bytes) (length bytes) header → SamePages (file_pages bytes) (map_by header bytes) }
{}

/// By what is kept of its log, and by the header that is read of the first bytes of its overlay, the target has the pages that a reader sees (Database File Format, section 4.5);
/// where there is no log, by the header of its own first bytes. So has any file under that log.
pub fn view_has_these_pages()
    ensures logged { (files : Files) (wal : List ℕ) (needed : ℕ) (log : Log) (header : Header) → files Wal ≡ Some wal → HasLog wal needed log
        → IsHeaderOf (start_over (Some log) Target files).first (start_over (Some log) Target files).long header → (0 < log.committed → log.page_size ≡ header.page_size)
        → IsView files (map_over header (Some log) Target files) }
    ensures alone { (files : Files) (header : Header) → files Wal ≡ None → IsHeaderOf (file_start Target files).first (file_start Target files).long header
        → IsView files (map_over header None Target files) }
    ensures overlaid { (files : Files) (name : FileName) (needed : ℕ) (log : Log) (header : Header) → HasLog (content files Wal) needed log
        → IsHeaderOf (start_over (Some log) name files).first (start_over (Some log) name files).long header → (0 < log.committed → log.page_size ≡ header.page_size)
        → IsOverlaidBy (Some (content files Wal)) (content files name) (map_over header (Some log) name files) }
{}
