// How keys compare.
ghost use Rattle.std.specs.Prelude.{◌≡◌, slice_index_or, false};
ghost use Rattle.rbu_value.specs.declared.order.Collation.TheVariants.{Binary};
ghost use Rattle.key_order.specs.Orders.{key_length};

use owned_list::OwnedList;
use rbu_value::Collation;

/// How the entries of an index compare: by their first values, the columns of a key, and by the rowid behind these where it comes last. Where it does not, entries with equal columns are equal.
#[derive(Drop)]
pub struct KeyOrder {
    /// The collation of each column, and whether it descends.
    pub columns: OwnedList<(Collation, bool)>,
    /// Whether the value behind the columns, the rowid, is compared too. It rises.
    pub rowid_last: bool,
}

impl KeyOrder {
    /// How many values of a record are compared.
    pub fn length(&self) -> usize
        ensures { result ≡ key_length self.now }
    {
        let columns = self.columns.as_slice().len();
        if self.rowid_last {
            columns + 1
        } else {
            columns
        }
    }

    /// The collation of a value that is compared, by its place, and whether it descends.
    pub fn column(&self, at: usize) -> (Collation, bool)
        ensures { result ≡ slice_index_or self.now.columns at (Binary, false) }
    {
        match self.columns.as_slice().get(at) {
            Some(column) => *column,
            None => (Collation::Binary, false),
        }
    }
}
