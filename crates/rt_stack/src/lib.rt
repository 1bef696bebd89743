// The region of memory that the stack of a core lies in: frames are pushed, lent and popped at its end.
// Promises: the region is a list of words within its size.
// Stands on: rt_ids.
// Read next: specs/Region.antt, then src/region.rt.
#![tactic(auto)]

pub mod region;

pub use region::Region;
