// Laws of response times of images.

ghost use Rattle.rt_code.specs.Image.{Image};
ghost use Rattle.rt_lines.specs.Reading.{IsReadOneWay};
ghost use Rattle.rt_image_times.specs.Laws.{OneResponseTime};
ghost use Rattle.rt_image_times.specs.Text.{image_limits_reader};

/// Each text that is not too long tells limits or has a first wrong line, not both, and in one way.
#[tactic(auto, using(rt_lines::proofs::Reading::read_one_way))]
pub fn image_limits_are_read_one_way()
    ensures { (img : Image) → IsReadOneWay (image_limits_reader img) }
{}

/// A priority has one response time: one number, or one reason why there is none.
#[tactic(auto, using(crate::proofs::Once::one_response_time))]
pub fn one_response_time()
    ensures { OneResponseTime }
{}
