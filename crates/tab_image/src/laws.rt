//! What holds of images: laws, each the contract of a function that does nothing.
ghost use Rattle.tab_image.specs.Written.{OneSpelling, WhatFitsIsSpelled};
ghost use Rattle.tab_image.specs.Reading.{ImagesAreRead, VersionsAreTold};

/// Reading bytes gives exactly the image that they spell, in either version.
pub fn images_are_read()
    ensures { ImagesAreRead }
{}

/// A version is told exactly where the bytes begin as an image and the version that follows is neither 1 nor 2.
pub fn versions_are_told()
    ensures { VersionsAreTold }
{}

/// In each version an image has one spelling; that of the second one is written for it.
pub fn one_spelling()
    ensures { OneSpelling }
{}

/// What is written for an image that fits the types of the code, and of which all conditions hold, is an image of the second
/// version, and says it.
pub fn what_fits_is_spelled()
    ensures { WhatFitsIsSpelled }
{}
