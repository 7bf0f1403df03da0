//! No files at all.
ghost use Rattle.std.specs.Prelude.{◌≡◌, Err};
ghost use Rattle.tab_prog.specs.declared.outcome.LoadFault.TheVariants as load;
ghost use Rattle.tab_prog.specs.declared.outcome.SaveFault.TheVariants as save;

use tab_core::Core;
use tab_prog::{FileName, Files, LoadFault, SaveFault};

/// The files of a page: none can be saved or loaded.
#[derive(Drop)]
pub struct NoFiles;

impl Files for NoFiles {
    ghost saves = { λ _ _ _ told _. told ≡ Err save.Io };

    ghost loads = { λ _ _ told _. told ≡ Err load.Io };

    fn save(&mut self, _name: &FileName, _core: &Core) -> Result<(), SaveFault> {
        Err(SaveFault::Io)
    }

    fn load(&mut self, _name: &FileName) -> Result<Core, LoadFault> {
        Err(LoadFault::Io)
    }
}
