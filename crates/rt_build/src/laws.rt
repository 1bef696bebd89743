// Laws of images: each application has one, and what correct code is worth.

ghost use Rattle.rt_build.specs.Laws.{CodeKeepsLaws, FixedCodeHasOneImage, ImagesExist, OneImageIsBuilt};

/// What holds of all code that stands, in every application's memory: it stands with more code after it, with more
/// steps than it needs, and whatever others do to what is not its own; and of each of its steps, what it does, which
/// masks and frames it leaves, what a section takes over and gives back, and where the ends lead.
pub fn code_that_stands_keeps_its_laws()
    ensures { CodeKeepsLaws }
{}

/// An application that has no software tasks and no monotonic, and whose bodies emit literals and pend interrupts and
/// do nothing else, has one image, and so one listing.
pub fn fixed_code_has_one_image()
    ensures { FixedCodeHasOneImage }
{}

/// An application has one image that `build` makes: two answers for it are equal, and so are their listings.
pub fn one_image_is_built()
    ensures { OneImageIsBuilt }
{}

/// Every accepted application has an image, which a core runs, and whose listing and the lines of its traces can be
/// written. So the clauses of `build` are kept by more than a body that always wants memory.
pub fn images_exist()
    ensures { ImagesExist }
{}
