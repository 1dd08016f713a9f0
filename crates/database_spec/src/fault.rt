// What may be wrong with a database.
use rbu_value::Bytes;
use refusal::Rule;

/// What is wrong with a database, as far as its schema and its trees say.
#[derive(Drop)]
pub enum FileFault {
    /// 55: the tree of the schema, or of a table, is damaged on the way of a cursor. The page that holds what is wrong.
    TreeDamaged { page: u32, rule: Rule },
    /// 62: a row of the schema is not as it has to be.
    SchemaRow { rowid: i64 },
    /// 63: a second table, view or index of this name.
    DuplicateName { name: Bytes },
    /// 70: a page is found a second time.
    PageTwice { page: u32 },
    /// 71: a page is found nowhere.
    PageLost { page: u32 },
    /// 72: keys do not rise. The page of the first cell at which the order breaks.
    KeyOrder { page: u32 },
    /// 73: an entry stands in an index or in the projection of its table alone, or two entries of a unique index have equal columns; the rowid is that of the entry, or of the second one.
    IndexDisagrees { index: Bytes, rowid: i64 },
    /// 74: any other rule of soundness is broken. The page that holds what is wrong.
    Damaged { page: u32, rule: Rule },
}
