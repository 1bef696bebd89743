// Images from anywhere: the points that their code comes to, and seven rules for what stands there.
// Promises: the seven rules as definitions; an image is checked or has one least broken rule.
// Stands on: rt_ids, rt_code.
// Read next: specs/Leading.antt, then specs/Rules.antt.
#![tactic(auto)]

pub mod laws;
pub mod point;
pub mod rule;

pub use laws::{constants_are_as_documented, images_are_judged_one_way};
pub use point::{Opened, Owner, SectionKind};
pub use rule::{MOST_OPEN, Rule, STACK_BYTES};
