// The files that are kept open.
ghost use Rattle.std.specs.Prelude.{◌≡◌, None, Some};

use rbu_disk::FileName;
use std::mem;

/// An open file for each name, or none.
#[derive(Drop)]
pub struct OpenFiles<F> {
    target: Option<F>,
    oal: Option<F>,
    wal: Option<F>,
    journal: Option<F>,
    rbu: Option<F>,
    state: Option<F>,
    state_temp: Option<F>,
}

impl<F: Drop> OpenFiles<F> {
    ghost use Rattle.disk_host.specs.OpenFiles.{open_at, with_moved, with_open};

    /// No file is open.
    pub fn new() -> OpenFiles<F>
        ensures { result ≡ record { target = None; oal = None; wal = None; journal = None; rbu = None; state = None; state_temp = None } }
    {
        OpenFiles {
            target: None,
            oal: None,
            wal: None,
            journal: None,
            rbu: None,
            state: None,
            state_temp: None,
        }
    }

    /// Keeps a file or none under a name, and gives what that had.
    fn replace(&mut self, name: FileName, file: Option<F>) -> Option<F>
        ensures value { result ≡ open_at self.old name }
        ensures after { self.new ≡ with_open self.old name file }
    {
        match name {
            FileName::Target => mem::replace(&mut self.target, file),
            FileName::Oal => mem::replace(&mut self.oal, file),
            FileName::Wal => mem::replace(&mut self.wal, file),
            FileName::Journal => mem::replace(&mut self.journal, file),
            FileName::Rbu => mem::replace(&mut self.rbu, file),
            FileName::State => mem::replace(&mut self.state, file),
            FileName::StateTemp => mem::replace(&mut self.state_temp, file),
        }
    }

    /// Keeps a file under a name; what that had is closed.
    pub fn keep(&mut self, name: FileName, file: F)
        ensures { self.new ≡ with_open self.old name (Some file) }
    {
        let _ = self.replace(name, Some(file));
    }

    /// Takes out the file that is open under a name.
    pub fn take(&mut self, name: FileName) -> Option<F>
        ensures value { result ≡ open_at self.old name }
        ensures after { self.new ≡ with_open self.old name None }
    {
        self.replace(name, None)
    }

    /// Gives the file of a name another name; what that had is closed.
    pub fn rename(&mut self, from: FileName, to: FileName)
        ensures { self.new ≡ with_moved self.old from to }
    {
        let file = self.replace(from, None);
        let _ = self.replace(to, file);
    }
}
