// The law that response times of images hold.

ghost use Rattle.rt_image_times_laws.specs.Laws.{ImagesRespond, ImagesRespondOnceInitEnds, TimesAreTold};

/// The response times of a checked image, none of whose instructions requests an interrupt, are met on every run whose
/// requests keep the limits.
pub fn image_times_hold()
    // Where nothing is requested before `init` ends.
    ensures late { ImagesRespond }
    // Where interrupts may be requested during `init` too, however often.
    ensures once_init_ends { ImagesRespondOnceInitEnds }
    // A response time, or why there is none, is told of each enabled interrupt.
    ensures told { TimesAreTold }
{}
