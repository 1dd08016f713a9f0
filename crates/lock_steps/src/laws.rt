// What a reader has open.
ghost use Rattle.std.specs.Prelude.{◌≡◌, ◌≢◌, ℕ, ◌++◌, [], ◌∷◌, List, Some, None};
ghost use Rattle.lock_steps.specs.declared.locks.OpenRead.{OpenRead};
ghost use Rattle.lock_steps.specs.Locks.{read_of, without};

/// What a reader has open after reads begin and end: its own read, and no other's.
pub fn each_reader_has_its_own_read()
    ensures ended { (reads : List OpenRead) (reader : ℕ) → read_of (without reader reads) reader ≡ None }
    ensures kept { (reads : List OpenRead) (reader other : ℕ) → other ≢ reader → read_of (without reader reads) other ≡ read_of reads other }
    ensures begun { (reads : List OpenRead) (read : OpenRead) → read_of reads read.reader ≡ None → read_of (reads ++ read ∷ []) read.reader ≡ Some read }
    ensures others { (reads : List OpenRead) (read : OpenRead) (other : ℕ) → other ≢ read.reader → read_of (reads ++ read ∷ []) other ≡ read_of reads other }
{}
