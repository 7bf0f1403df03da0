//! Where images are saved to and loaded from.
ghost use Rattle.std.specs.Prelude.{ℕ, List, Result};
ghost use Rattle.tab_core.specs.Stores.{CoreContents};
ghost use Rattle.tab_prog.specs.declared.outcome.LoadFault.{LoadFault as LoadStop};
ghost use Rattle.tab_prog.specs.declared.outcome.SaveFault.{SaveFault as SaveStop};

use crate::outcome::{LoadFault, SaveFault};
use tab_core::Core;
use tab_lines::FileName;

/// Where images are saved to and loaded from, by the names that lines give. No contract says what a file of the system holds; an
/// implementation says by its ghosts what it gives.
pub trait Files {
    // What a save of this core under this name may tell, and the files after it.
    ghost saves: { Self → List ℕ → CoreContents → Result (Unit {0}) SaveStop → Self → Type 0 };

    // What a load of this name may give, and the files after it.
    ghost loads: { Self → List ℕ → Result CoreContents LoadStop → Self → Type 0 };

    /// Saves an image of the core under this name, in the place of what the name had. An error leaves the name what it had.
    fn save(&mut self, name: &FileName, core: &Core) -> Result<(), SaveFault>
        ensures { saves self.old name.now core.now result self.new };

    /// The core of which the file of this name holds an image.
    fn load(&mut self, name: &FileName) -> Result<Core, LoadFault>
        ensures { loads self.old name.now result self.new };
}
