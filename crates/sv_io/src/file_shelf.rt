// A shelf over the files of the system. No contract says what they hold.
ghost use Rattle.std.specs.Prelude.{◌≡◌, ◌≢◌, ◌≤◌, ◌+◌, ◌-◌, ◌^◌, ◌<◌, Some, None, min, length, vec_len, IsErr};
ghost use Rattle.sv_io.specs.Faults.{raised};

use crate::{Fetch, Shelf};
use std::alloc::Global;
use std::fs;
use std::io::{ErrorKind, Read};
use std::marker::Model;
use std::rt::Files;

/// The files of the system. It tells no bytes, and is seen as its count of faults, how many bytes its last call took, and
/// the name for which it last answered `Failed`.
#[derive(Drop)]
pub struct FileShelf<R: Files + Drop> {
    rt: R,
    faults: u64,
    taken: u64,
    failed: Option<Vec<u8>>,
}

impl<R: Files + Drop> Model for FileShelf<R> {
    ghost use Rattle.std.specs.Prelude.{option_map};
    ghost use Rattle.sv_io.specs.Kept.{FileShelfState};

    ghost Value = { FileShelfState };

    ghost view = { λ s. record { faults = s.faults; taken = s.taken; failed = option_map (λ v. v.items) s.failed } };
}

impl<R: Files + Drop> FileShelf<R> {
    /// A shelf over the files of a runtime that has not failed.
    pub fn new(rt: R) -> Self
        ensures { result ≡ record { faults = 0; taken = 0; failed = None } }
    {
        FileShelf {
            rt,
            faults: 0,
            taken: 0,
            failed: None,
        }
    }

    /// Fails for a name, or finds no memory for it.
    fn fail(&mut self, alloc: Global, name: &str) -> Fetch
        ensures failed { result ≢ Fetch.Memory → self.new ≡ record self.old { faults = raised self.old.faults; failed = Some name.now } }
        ensures memory { result ≡ Fetch.Memory → self.new ≡ self.old }
        ensures not_long { result ≢ Fetch.Long }
        ensures taken { self.new.taken ≡ self.old.taken }
        ensures never_falls { self.old.faults ≤ self.new.faults }
    {
        let Ok(copy) = name.as_bytes().to_vec(alloc) else {
            return Fetch::Memory;
        };
        self.failed = Some(copy);
        self.faults = self.faults.saturating_add(1);
        Fetch::Failed
    }
}

/// Reads behind what is there to the end of a file, or up to so many bytes in all. It never answers `Long`, and where it
/// fails fewer bytes are there.
fn read_up_to<T: Read>(file: &mut T, most: u64, text: &mut Vec<u8>) -> Result<(), Fetch>
    requires { vec_len text.old ≤ most }
    ensures most { vec_len text.new ≤ most }
    ensures not_long { result ≢ Err Fetch.Long }
    ensures fewer { IsErr result → vec_len text.new < most }
{
    let mut buffer = [0u8; 4096];
    for _ in 0..u64::MAX {
        let room = most - text.len() as u64;
        if room == 0 {
            break;
        }
        let part = room.min(4096) as usize;
        match file.read(&mut buffer[..part]) {
            Ok(0) => break,
            Ok(count) => text.extend_from_slice(&buffer[..count])?,
            Err(e) if e.kind() == ErrorKind::Interrupted => {}
            Err(_) => return Err(Fetch::Failed),
        }
    }
    Ok(())
}

impl<R: Files + Drop> Shelf for FileShelf<R> {
    ghost use Rattle.std.specs.Prelude.{None};

    ghost files = { λ _. None };

    ghost faults = { λ s. s.faults };

    ghost taken = { λ s. s.taken };

    ghost failed = { λ s. s.failed };

    fn fetch(&mut self, alloc: Global, name: &str, limit: u64) -> Result<Vec<u8>, Fetch> {
        self.taken = 0;
        let Ok(mut file) = fs::open(&self.rt, name) else {
            return Err(self.fail(alloc, name));
        };
        let mut text = Vec::new(alloc);
        let read = read_up_to(&mut file, limit.saturating_add(1), &mut text);
        self.taken = text.len() as u64;
        match read {
            Ok(()) if self.taken > limit => Err(Fetch::Long),
            Ok(()) => Ok(text),
            Err(Fetch::Memory) => Err(Fetch::Memory),
            Err(_) => Err(self.fail(alloc, name)),
        }
    }
}

#[cfg(test)]
mod tests {
    use super::*;
    use std::test::Fail;

    #[test]
    fn reads_files(rt: HostRuntime) -> Result<(), Fail> {
        let alloc = rt.alloc();
        fs::write(&rt, "short", b"text\n")?;
        fs::write(&rt, "long", [b'x'; 5000].as_slice())?;
        let mut shelf = FileShelf::new(rt.clone()?);
        assert_eq!(rt;
            shelf.fetch(alloc, "short", 5)?.as_slice(),
            b"text\n".as_slice()
        );
        assert_eq!(rt; shelf.fetch(alloc, "short", 4).err(), Some(Fetch::Long));
        assert_eq!(rt; shelf.taken, 5);
        assert_eq!(rt; shelf.fetch(alloc, "long", 5000)?.len(), 5000);
        assert_eq!(rt; shelf.faults, 0);
        assert_eq!(rt; shelf.fetch(alloc, "absent", 9).err(), Some(Fetch::Failed));
        assert_eq!(rt; shelf.fetch(alloc, ".", 9).err(), Some(Fetch::Failed));
        assert_eq!(rt; shelf.faults, 2);
        assert_eq!(rt; shelf.failed.as_deref(), Some(b".".as_slice()));
        Ok(())
    }
}
