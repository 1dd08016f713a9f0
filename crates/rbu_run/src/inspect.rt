// The inspection of the files, which changes nothing.
ghost use Rattle.std.specs.Prelude.{◌≡◌, ℕ, List, IfOk, IfSome, option_map};
ghost use Rattle.common_spec.specs.Reading.{Reads, OrNone};
ghost use Rattle.file_spec.specs.declared.FileName.TheVariants.{Target, Rbu};
ghost use Rattle.file_spec.specs.Files.{content};
ghost use Rattle.rbu_disk.specs.Disk.{AllowsAll, Looks, OwesBy};
ghost use Rattle.small_spec.specs.SmallFile.{IsSmallTarget, IsSmallRbu};
ghost use Rattle.rbu_query.specs.Answers.{fault_in};
ghost use Rattle.rbu_run.specs.Inspection.{IsInspected, HasSmallRows};

use crate::files::{has_other_file, small_bytes};
use rbu_disk::{Disk, FileName};
use rbu_query::Halt;
use refusal::Part;
use small_file::{read_rbu, read_target};
use small_spec::{PreparedRow, TargetRow};
use std::alloc::Global;

/// What the files are.
#[derive(Drop)]
pub enum Inspected {
    /// They need a part that is not built.
    Missing {
        part: Part,
    },
    /// Both are small: the target's bytes, its rows, and the prepared rows.
    Small {
        target: Vec<u8>,
        old: Vec<TargetRow>,
        prepared: Vec<PreparedRow>,
    },
}

/// The target's bytes and rows, or `None` where it is not small.
fn target_rows<D: Disk>(
    alloc: Global,
    disk: &mut D,
) -> Result<Option<(Vec<u8>, Vec<TargetRow>)>, Halt>
    requires allowed { AllowsAll D.Disk disk.old }
    ensures files { Looks D.Disk disk.old disk.new result (λ found f.
        Reads (OrNone (IsSmallTarget (content f Target))) (option_map (λ pair. pair.1.items) found)
        × IfSome found (λ pair. pair.0.items ≡ content f Target)) }
    ensures rows { IfOk result (λ found. IfSome found (λ pair. IsSmallTarget pair.0.items pair.1.items)) }
    ensures calls { OwesBy D.Disk fault_in disk.old disk.new result }
{
    let Some(bytes) = small_bytes(alloc, disk, FileName::Target)? else {
        return Ok(None);
    };
    let Some(rows) = read_target(alloc, &bytes)? else {
        return Ok(None);
    };
    Ok(Some((bytes, rows)))
}

/// The prepared rows, or `None` where the RBU database is not small.
fn prepared_rows<D: Disk>(alloc: Global, disk: &mut D) -> Result<Option<Vec<PreparedRow>>, Halt>
    requires allowed { AllowsAll D.Disk disk.old }
    ensures files { Looks D.Disk disk.old disk.new result (λ found f.
        Reads (OrNone (IsSmallRbu (content f Rbu))) (option_map (λ rows. rows.items) found)) }
    ensures rows { IfOk result (λ found. IfSome found (λ rows. (bytes : List ℕ) × IsSmallRbu bytes rows.items)) }
    ensures calls { OwesBy D.Disk fault_in disk.old disk.new result }
{
    let Some(bytes) = small_bytes(alloc, disk, FileName::Rbu)? else {
        return Ok(None);
    };
    let Some(rows) = read_rbu(alloc, &bytes)? else {
        return Ok(None);
    };
    Ok(Some(rows))
}

/// Looks at the files in the order in which their parts are refused, and reads the rows of small ones.
pub fn inspect<D: Disk>(alloc: Global, disk: &mut D) -> Result<Inspected, Halt>
    requires allowed { AllowsAll D.Disk disk.old }
    ensures files { Looks D.Disk disk.old disk.new result IsInspected }
    ensures rows { IfOk result HasSmallRows }
    ensures calls { OwesBy D.Disk fault_in disk.old disk.new result }
{
    if has_other_file(disk)? {
        return Ok(Inspected::Missing { part: Part::Files });
    }
    let Some((target, old)) = target_rows(alloc, disk)? else {
        return Ok(Inspected::Missing { part: Part::Target });
    };
    let Some(prepared) = prepared_rows(alloc, disk)? else {
        return Ok(Inspected::Missing { part: Part::Rbu });
    };
    Ok(Inspected::Small {
        target,
        old,
        prepared,
    })
}
