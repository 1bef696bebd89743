// Laws of where a program lies.

ghost use Rattle.rt_native.specs.Laws.{CallsHaveTheirPlaces, CodeHasItsPlaces, StubsHaveTheirPlaces};

/// The code of each of an image's instructions lies between its place and the next one's, and so does what runs first
/// as an interrupt is taken. The BL of a function lies where an object tells it.
pub fn code_has_its_places()
    ensures code { CodeHasItsPlaces }
    ensures stubs { StubsHaveTheirPlaces }
    ensures calls { CallsHaveTheirPlaces }
{}
