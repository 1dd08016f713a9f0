// NULLs among the columns of an entry.
ghost use Rattle.std.specs.Prelude.{◌≡◌, IfOk};
ghost use Rattle.std.specs.List.{list_any};
ghost use Rattle.database_spec.specs.Keys.{is_null as is_null_of};
ghost use Rattle.key_order.specs.Orders.{IsEntry};
ghost use Rattle.index_lookup.specs.Alikes.{TellsNull};

use key_order::KeyOrder;
use rbu_value::Value;
use record_codec::read_record;
use std::alloc::{AllocError, Global};

fn is_null(value: &Value) -> bool
    ensures { result ≡ is_null_of value.now }
{
    match value {
        Value::Null => true,
        Value::Int(_) => false,
        Value::Text(_) => false,
        Value::Blob(_) => false,
    }
}

// Whether a NULL is among values.
fn any_null(values: &[Value]) -> bool
    ensures { result ≡ list_any is_null_of values.now }
{
    values.iter().any(is_null)
}

/// Whether a NULL is among the columns of an entry.
pub fn has_null(alloc: Global, payload: &[u8], order: &KeyOrder) -> Result<bool, AllocError>
    requires entry { IsEntry order.now payload.now }
    ensures { IfOk result (TellsNull order.now payload.now) }
{
    // An entry is a record, so nothing but memory can be wanting.
    let Ok(values) = read_record(alloc, payload) else {
        return Err(AllocError);
    };
    let columns = order.columns.as_slice().len();
    Ok(any_null(&values.as_slice()[..columns]))
}
