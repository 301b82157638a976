// Sets of names.
ghost use Rattle.std.specs.Prelude.{◌≡◌, ◌||◌, false, ℕ, List, OnOk};
ghost use Rattle.sv_names.specs.Types.{same_bytes};
ghost use Rattle.sv_names.specs.Index.{has_name};

use crate::name_index::NameIndex;
use std::alloc::Global;
use sv_value::NoMemory;

/// Names, by their bytes. One is found without a walk along them.
pub struct NameSet {
    names: NameIndex,
}

impl Drop for NameSet {
    fn drop(self) {
        let NameSet { names: _ } = self;
    }
}

impl NameSet {
    /// No names.
    pub fn new(alloc: Global) -> NameSet
        ensures { (x : List ℕ) → has_name result x ≡ false }
    {
        NameSet {
            names: NameIndex::new(alloc),
        }
    }

    /// Whether a name is among them.
    pub fn has(&self, name: &[u8]) -> bool
        ensures { result ≡ has_name self.now name.now }
    {
        self.names.contains_key(name)
    }

    /// Adds a name.
    pub fn add(&mut self, alloc: Global, name: &[u8]) -> Result<(), NoMemory>
        ensures { OnOk result ((x : List ℕ) → has_name self.new x ≡ (same_bytes x name.now || has_name self.old x)) }
    {
        if self.names.contains_key(name) {
            return Ok(());
        }
        let key = Vec::from_slice(alloc, name)?;
        self.names.insert(key, 0)?;
        Ok(())
    }
}
