// The schema format of a database (Database File Format, section 1.3.10).
ghost use Rattle.std.specs.Prelude.{◌≡◌, ◌≤◌, IfErr, IfOk, None, length};
ghost use Rattle.page_store.specs.Store.{HasSizes, Looks, OwesBy};
ghost use Rattle.tree_spec.specs.Faults.{IsOther};
ghost use Rattle.pass_fault.specs.Faults.{IsTreeFault, fault_in};
ghost use Rattle.pass_fault.specs.Formats.{format_in};

use crate::fault::PassFault;
use byte_fields::u32_at;
use page_store::{PageRead, page_buffer};
use std::alloc::Global;
use tree_spec::TreeFault;

// The bytes of page 1.
fn first_page<S: PageRead>(alloc: Global, store: &mut S) -> Result<Vec<u8>, PassFault<S::Fault>>
    requires some { 1 ≤ S.count store.old }
    ensures pages { Looks S.PageRead store.old store.new result (λ bytes m. bytes.items ≡ m 1) }
    ensures whole { IfOk result (λ bytes. length bytes.items ≡ S.size store.old) }
    ensures other { IfErr result (IsTreeFault IsOther) }
    ensures owes { OwesBy S.PageRead fault_in store.old store.new result }
{
    let mut buffer = page_buffer(alloc, store.page_size())?;
    match store.page(1, buffer.as_mut_slice()) {
        Ok(()) => Ok(buffer),
        Err(fault) => Err(PassFault::Tree(TreeFault::Store(fault))),
    }
}

// The schema format that counts, by the header in page 1; 0 is read as 1.
fn format_of(page: &[u8]) -> u32
    requires { 48 ≤ length page.now }
    ensures { result ≡ format_in page.now }
{
    let format = u32_at(page, 44);
    if format == 0 {
        return 1;
    }
    format
}

/// The schema format of the database that a store has, from 1 on, under which records are written. Fails where the store does, or memory runs out.
pub fn read_format<S: PageRead>(alloc: Global, store: &mut S) -> Result<u32, PassFault<S::Fault>>
    requires sizes { HasSizes S.PageRead store.old }
    requires some { 1 ≤ S.count store.old }
    ensures pages { Looks S.PageRead store.old store.new result (λ format m. format ≡ format_in (m 1)) }
    ensures other { IfErr result (IsTreeFault IsOther) }
    ensures owes { OwesBy S.PageRead fault_in store.old store.new result }
{
    match first_page(alloc, store) {
        Ok(page) => Ok(format_of(page.as_slice())),
        Err(fault) => Err(fault),
    }
}
