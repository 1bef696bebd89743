// The law that the code of a dispatcher stands.

ghost use Rattle.rt_gen_disp.specs.Dispatching.{DispatchersStand};

/// The code of a dispatcher stands wherever the bodies of its tasks stand when they are called.
pub fn dispatchers_stand()
    ensures { DispatchersStand }
{}
