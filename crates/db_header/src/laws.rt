// Laws about the definitions of the header.
ghost use Rattle.std.specs.Prelude.{◌≡◌, ◌*◌, ◌<◌, ◌≤◌, ℕ, List, Result, length, drop, slice_index};
ghost use Rattle.format_spec.specs.Header.{largest_root, text_encoding, change_counter, version_valid_for};
ghost use Rattle.db_header.specs.declared.fields.Header.{Header};
ghost use Rattle.db_header.specs.declared.fields.HeaderFault.{HeaderFault};
ghost use Rattle.common_spec.specs.Reading.{OrFault};
ghost use Rattle.db_header.specs.Reading.{IsDatabase, HasRollbackVersions, IsHeaderOf, IsFirstFault};
ghost use Rattle.db_header.specs.Writing.{IsHeader, header_written};

/// A file has one header or one first fault, and not both.
pub fn header_has_one_reading()
    ensures { (bytes : List ℕ) (file_len : ℕ) (a b : Result Header HeaderFault) →
        OrFault (IsHeaderOf bytes file_len) (IsFirstFault bytes file_len) a → OrFault (IsHeaderOf bytes file_len) (IsFirstFault bytes file_len) b → a ≡ b }
{}

/// A header that is read from bytes can be written.
pub fn read_header_can_be_written()
    ensures { (bytes : List ℕ) (file_len : ℕ) (header : Header) → ((k : ℕ) → slice_index bytes k < 256) → IsHeaderOf bytes file_len header → IsHeader header }
{}

/// A header that is written into page 1 of a database is read again, in a file that has its pages. The size is valid, the length
/// of the page stays, and so does what stands behind the header.
pub fn written_header_is_read()
    ensures read { (header : Header) (bytes : List ℕ) (file_len : ℕ)
        → IsDatabase bytes → HasRollbackVersions bytes → text_encoding bytes ≤ 1 → largest_root bytes ≡ 0
        → IsHeader header → header.pages * header.page_size ≤ file_len
        → IsHeaderOf (header_written header bytes) file_len header }
    ensures valid { (header : Header) (bytes : List ℕ) → IsHeader header → 100 ≤ length bytes
        → version_valid_for (header_written header bytes) ≡ change_counter (header_written header bytes) }
    ensures long { (header : Header) (bytes : List ℕ) → 100 ≤ length bytes → length (header_written header bytes) ≡ length bytes }
    ensures behind { (header : Header) (bytes : List ℕ) → 100 ≤ length bytes → drop 100 (header_written header bytes) ≡ drop 100 bytes }
{}
