// The law that different images have different listings.

ghost use Rattle.rt_listing.specs.Injective.{TellsImagesApart};

/// Different listable images over the same names, whose numbers are of 64 bits, have different texts.
pub fn listings_tell_images_apart()
    ensures { TellsImagesApart }
{}
