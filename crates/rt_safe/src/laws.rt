// The law that a checked image is safe, and that a core runs it.

ghost use Rattle.rt_safe.specs.Laws.{CheckedImagesAreSafe, CheckedImagesRun};

/// An image that keeps the seven rules is safe: whatever happens to a core that runs it, for every list of events,
/// nothing traps, the stack stays in its region, sections are exclusive and none is found taken, no handler returns
/// inside a section, and cells for which owners contend are touched inside their section, `init` aside.
pub fn checked_images_are_safe()
    ensures { CheckedImagesAreSafe }
{}

/// A core runs each image that keeps the seven rules, is within the limits and has fewer than 2^31 cells.
pub fn checked_images_run()
    ensures { CheckedImagesRun }
{}
