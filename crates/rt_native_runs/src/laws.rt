// The laws of the images that are built, and of their programs.

ghost use Rattle.rt_native_runs.specs.FromFile.{FilesRunAsImages};
ghost use Rattle.rt_native_runs.specs.Laws.{ImagesBehave, ImagesLieWell};
ghost use Rattle.rt_native_runs.specs.Running.{LinkedProgramsRunAsImages, ProgramsRunAsImages};

/// The parts of the image that `build` makes of an accepted application lie well: control stays within a part, each
/// begins with the frame of its row, bodies are called from frames of sixteen words, and alarms pend one interrupt.
pub fn images_lie_well()
    ensures { ImagesLieWell }
{}

/// The image that `build` makes of an accepted application behaves well, at all moments of all runs in which declared
/// interrupts arrive and the counts of the monotonic fit, whatever words a new frame holds, and whatever words devices
/// write into local resources of hardware tasks.
pub fn images_behave()
    ensures { ImagesBehave }
{}

/// The program of the image that `build` makes of an accepted application does, from reset on, what the image does, at
/// each event of every list, whatever interrupts arrive and whatever devices change in their registers between any two
/// machine instructions: there is no fault; the same arrives, words of inputs are what their registers held as they
/// were loaded, and others see what the image shows; and the stack is no deeper, but for a tick's frame. It is so as
/// long as what happens to the image fits: then what it shows is a run of Baker's machine beside devices, with its
/// three properties, messages are kept, and the stack is within the printed bound. It is not said of programs that call
/// functions of C: of those it is below.
pub fn programs_run_as_images()
    ensures { ProgramsRunAsImages }
{}

/// The program of an object that is linked with functions of C does so beside these functions, which may be interrupted
/// between any two of their machine instructions: each is called as the procedure call standard has it, with its part
/// of the stack within the printed bound. Words that it leaves in cells are, to the image, words of a device. That each
/// keeps to what is its own, and comes back as agreed where it ends, is a premise.
pub fn linked_programs_run_as_images()
    ensures { LinkedProgramsRunAsImages }
{}

/// Each processor whose memory holds the file of that image, as reset ends, does so: what flash has then is the image's
/// program.
pub fn files_run_as_images()
    ensures { FilesRunAsImages }
{}
