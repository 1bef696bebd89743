// The law that the code of a spawn stands wherever it is.

ghost use Rattle.rt_gen_queue.specs.Spawning.{SpawnsStand};

/// The code of a spawn, wherever it stands in a body of an accepted application, does what a spawn has to do, within
/// its cost, and leaves what the job has as it was.
pub fn spawns_stand()
    ensures { SpawnsStand }
{}
