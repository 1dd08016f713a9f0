// What is asked of a database.

/// What a command asks that only reads a database.
#[derive(Clone, Copy)]
pub enum Question<'a> {
    /// The lines of the table with this name.
    Dump { name: &'a [u8] },
    /// Whether the database is sound.
    Check,
}
