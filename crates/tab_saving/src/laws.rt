//! What holds of images of cores: laws, each the contract of a function that does nothing.
ghost use Rattle.tab_saving.specs.Existence.{CoresHaveImages};
ghost use Rattle.tab_saving.specs.OneImage.{CoresOfOneImage, OneImageEach, ImagesAreThis};

/// Two cores of one image refine each other, so that the same runs are legal from both, with the same sessions: a core that is loaded
/// answers all that follows as the one that was saved.
pub fn cores_of_one_image()
    ensures { CoresOfOneImage }
{}

/// A core has one image.
pub fn one_image_each()
    ensures { OneImageEach }
{}

/// The image that a core has is the one with the set of its users' names, and it has it exactly where no two of them have one name.
pub fn images_are_this()
    ensures { ImagesAreThis }
{}

/// A core has an image where no two of its users have one name, and its parts are of their types, with fewer than 2^64 records in each
/// table. The bytes that are written of it are then that image.
pub fn cores_have_images()
    ensures { CoresHaveImages }
{}
