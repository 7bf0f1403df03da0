//! A store's folder, taken up with what it keeps.
use crate::escaped::Escaped;
use crate::files::core_of;
use crate::replaying::{Replayed, replay_all};
use anyhow::Context;
use tab_core::Core;
use tab_folder::{Folder, FolderFault, Format, Journal};

// Why no program begins over a folder.
#[derive(Clone, Copy, Debug, thiserror::Error)]
enum OpenFault {
    #[error("it keeps something already, so no image is loaded into it")]
    Image,
}

/// A folder that was taken up, with the core that has done all that it keeps.
#[derive(Drop)]
pub struct Opened<'a> {
    /// The folder.
    pub folder: Folder<'a>,
    /// The core.
    pub core: Core,
    /// Whether something was replayed, so that an image of the core saves the next start from that.
    pub is_replayed: bool,
    /// Its last journal, into which goes what is done from now on.
    pub journal: Journal,
}

/// Takes the folder of this path up, which is made where it isn't there, with the core that it keeps, or else the one of this image, or
/// a new one, of which it keeps an image then. What runs that didn't end left is replayed. Its last journal keeps what this format
/// says: events go on in one that keeps some, lines don't, since a script begins as `root`, whoever asked last. Where the image can't
/// be loaded nothing is made.
pub fn open_folder<'a>(
    rt: &'a HostRuntime,
    path: &'a str,
    image: Option<&str>,
    format: Format,
) -> anyhow::Result<Opened<'a>> {
    let begins = if Folder::keeps_image(rt, path) {
        None
    } else {
        Some(core_of(rt, image)?)
    };
    let folder = Folder::open(rt, path).with_context(|| path)?;
    note(rt, path, &folder);
    if folder.has_image() {
        if image.is_some() {
            return Err(OpenFault::Image).with_context(|| path);
        }
        return kept(rt, path, folder, format);
    }
    let core = match begins {
        Some(core) => core,
        None => core_of(rt, image)?,
    };
    begun(path, folder, core, format)
}

// A folder that keeps nothing yet, begun with an image of this core.
fn begun<'a>(
    path: &str,
    folder: Folder<'a>,
    core: Core,
    format: Format,
) -> anyhow::Result<Opened<'a>> {
    let mut folder = folder;
    let journal = folder.renew(&core, format).with_context(|| path)?;
    Ok(Opened {
        folder,
        core,
        is_replayed: false,
        journal,
    })
}

// A folder that keeps something.
fn kept<'a>(
    rt: &HostRuntime,
    path: &str,
    folder: Folder<'a>,
    format: Format,
) -> anyhow::Result<Opened<'a>> {
    let mut folder = folder;
    let contents = folder.contents().with_context(|| path)?;
    let core = contents.load().with_context(|| path)?;
    let Replayed {
        core,
        journal,
        found,
    } = replay_all(rt, &folder, path, core, format == Format::Events)?;
    let journal = gone_on(&mut folder, journal, &core, format).with_context(|| path)?;
    Ok(Opened {
        folder,
        core,
        is_replayed: !found.is_empty(),
        journal,
    })
}

// This journal of the folder, where it goes on, else its next one.
fn gone_on(
    folder: &mut Folder<'_>,
    journal: Option<Journal>,
    core: &Core,
    format: Format,
) -> Result<Journal, FolderFault> {
    match journal {
        Some(journal) => Ok(journal),
        None => Ok(folder.begin_next(core, format)?),
    }
}

// Says on standard error what of the folder isn't as it should be, and is no fault.
fn note(rt: &HostRuntime, path: &str, folder: &Folder<'_>) {
    let path = Escaped(&path);
    if let Some(mode) = folder.seen_by_others() {
        let _ = eprintln!(rt; "note: {path}: others may look into it: its mode is {mode:o}");
    }
    if let Some(error) = folder.unsynced() {
        let _ = eprintln!(rt;
            "note: {path}: the names of its files may not be on the disk: {error}"
        );
    }
}
