// Where the files of an update are.
ghost use Rattle.std.specs.Prelude.{◌≡◌, ◌++◌, IfOk, string_bytes};
ghost use Rattle.file_spec.specs.declared.FileName.{FileName as FileNames};
ghost use Rattle.disk_host.specs.Folders.{folder_of};

use rbu_disk::FileName;
use std::alloc::{AllocError, Global};
use std::path::Path;

/// The paths of the seven files.
#[derive(Drop)]
pub struct Paths {
    target: String,
    oal: String,
    wal: String,
    journal: String,
    rbu: String,
    state: String,
    state_temp: String,
}

/// The path with a suffix.
fn with_suffix(alloc: Global, path: &str, suffix: &str) -> Result<String, AllocError>
    ensures { IfOk result (λ text. string_bytes text ≡ path.now ++ suffix.now) }
{
    let mut text = String::from_str(alloc, path)?;
    text.push_str(suffix)?;
    Ok(text)
}

/// The folder in which a path lies, `.` where the path has none.
pub fn folder_of(path: &str) -> &str
    ensures { result.now ≡ folder_of path.now }
{
    match Path::new(path).parent() {
        Some(folder) if !folder.as_str().is_empty() => folder.as_str(),
        _ => ".",
    }
}

impl Paths {
    ghost use Rattle.disk_host.specs.Paths.{path_of, path_beside};

    /// The paths beside those of the target, the RBU database and the state.
    pub fn new(
        alloc: Global,
        target: String,
        rbu: String,
        state: String,
    ) -> Result<Paths, AllocError>
        ensures { IfOk result (λ paths. (name : FileNames) → path_of paths name ≡ path_beside (string_bytes target) (string_bytes rbu) (string_bytes state) name) }
    {
        let oal = with_suffix(alloc, target.as_str(), "-oal")?;
        let wal = with_suffix(alloc, target.as_str(), "-wal")?;
        let journal = with_suffix(alloc, target.as_str(), "-journal")?;
        let state_temp = with_suffix(alloc, state.as_str(), "-temp")?;
        Ok(Paths {
            target,
            oal,
            wal,
            journal,
            rbu,
            state,
            state_temp,
        })
    }

    /// The path of a file.
    pub fn path(&self, name: FileName) -> &str
        ensures { result.now ≡ path_of self.now name }
    {
        match name {
            FileName::Target => self.target.as_str(),
            FileName::Oal => self.oal.as_str(),
            FileName::Wal => self.wal.as_str(),
            FileName::Journal => self.journal.as_str(),
            FileName::Rbu => self.rbu.as_str(),
            FileName::State => self.state.as_str(),
            FileName::StateTemp => self.state_temp.as_str(),
        }
    }
}
