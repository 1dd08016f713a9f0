// Finds a table by its name.
ghost use Rattle.std.specs.Prelude.{◌≡◌, option_copied};
ghost use Rattle.prepared_spec.specs.Plans.{table_named as table_named_in};

use database_spec::NamedEntry;
use schema_tokens::same_name;

/// The first table or view of the name, where the case of ASCII letters does not count.
pub fn table_named<'a>(tables: &'a [NamedEntry], name: &[u8]) -> Option<&'a NamedEntry>
    ensures { option_copied result ≡ table_named_in name.now tables.now }
{
    let mut left = tables;
    while let [named, rest @ ..] = left {
        if same_name(named.name.as_slice(), name) {
            return Some(named);
        }
        left = rest;
    }
    None
}
