// Saves a state: the new file is written and synced under another name, and then takes the place of the old one.
ghost use Rattle.std.specs.Prelude.{◌≡◌, ◌⊎◌, Some, OnOk, OnErr, length};
ghost use Rattle.file_spec.specs.declared.FileName.TheVariants.{State, StateTemp};
ghost use Rattle.file_spec.specs.Files.{with_file, after_rename, OnlyChanges};
ghost use Rattle.rbu_disk.specs.Disk.{Goes, GoesOn, Owes};
ghost use Rattle.state_file.specs.State.{CanSave};
ghost use Rattle.state_file.specs.Saving.{AllowsSave, CrashesSaving, HasOldOrNew, LeavesNew, saved_bytes, with_state};
ghost use Rattle.state_file.specs.Phases.{HasTaken, HasTemporary, KeepsWriting, TakesName};

use crate::state::SavedState;
use crate::writing::state_bytes;
use rbu_disk::{Disk, DiskFault, FileName};

// Writes the bytes to the temporary file, and makes it stable.
fn write_temporary<D: Disk>(disk: &mut D, bytes: &[u8]) -> Result<(), DiskFault>
    requires allowed { AllowsSave D.Disk disk.old }
    requires long { length bytes.now ≡ 8192 }
    ensures done { OnOk result (Goes D.Disk disk.old disk.new (λ f g. g ≡ with_file f StateTemp (Some bytes.now))) }
    ensures only { Goes D.Disk disk.old disk.new (OnlyChanges StateTemp) }
    ensures moments { GoesOn D.Disk disk.old disk.new KeepsWriting }
    ensures stable { OnOk result (GoesOn D.Disk disk.old disk.new (λ a b. HasTemporary bytes.now b.now.at)) }
    ensures allowed { AllowsSave D.Disk disk.new }
    ensures calls { Owes D.Disk disk.old disk.new result }
{
    disk.write_at(FileName::StateTemp, 0, bytes)?;
    disk.set_len(FileName::StateTemp, bytes.len() as u64)?;
    disk.sync(FileName::StateTemp)
}

// Gives the temporary file the name of the state file, whatever a crash leaves.
fn take_name<D: Disk>(disk: &mut D) -> Result<(), DiskFault>
    requires { AllowsSave D.Disk disk.old }
    ensures done { OnOk result (Goes D.Disk disk.old disk.new (λ f g. g ≡ after_rename f StateTemp State)) }
    ensures failed { OnErr result (Goes D.Disk disk.old disk.new (λ f g. (g ≡ f) ⊎ (g ≡ after_rename f StateTemp State))) }
    ensures moments { GoesOn D.Disk disk.old disk.new TakesName }
    ensures taken { OnOk result (GoesOn D.Disk disk.old disk.new HasTaken) }
    ensures calls { Owes D.Disk disk.old disk.new result }
{
    disk.rename(FileName::StateTemp, FileName::State)?;
    disk.sync_folder()
}

/// Saves a state in the state file, in place of an earlier one. The buffer gets the file's bytes. While it is made a crash leaves the old state or the new, and after Ok the new, where no change of the names of the state file and of the temporary one was pending; the other files are those of an image from before. After an Err the state file shown is the old or the new one, and the temporary file any.
pub fn save<D: Disk>(
    disk: &mut D,
    state: &SavedState,
    buffer: &mut [u8; 8192],
) -> Result<(), DiskFault>
    requires allowed { AllowsSave D.Disk disk.old }
    requires state { CanSave state.now }
    ensures done { OnOk result (Goes D.Disk disk.old disk.new (λ f g. g ≡ with_state (saved_bytes state.now) f)) }
    ensures failed { OnErr result (Goes D.Disk disk.old disk.new (HasOldOrNew (saved_bytes state.now))) }
    ensures moments { GoesOn D.Disk disk.old disk.new (CrashesSaving (saved_bytes state.now)) }
    ensures stable { OnOk result (GoesOn D.Disk disk.old disk.new (LeavesNew (saved_bytes state.now))) }
    ensures buffer { buffer.new ≡ saved_bytes state.now }
    ensures calls { Owes D.Disk disk.old disk.new result }
{
    state_bytes(state, buffer);
    write_temporary(disk, buffer)?;
    take_name(disk)
}
