// Cases of the values of a message.

use crate::checks::OK;
use rt_trace::Args;

/// Up to four values are kept, and no others.
pub fn values_difference() -> &'static str {
    let all = [7, 0, 4_294_967_295, 9];
    for count in 0..=4 {
        let args = Args::of(&all[..count]);
        if (args.len(), args.is_empty()) != (count, count == 0) {
            return "how many differs";
        }
        if args.values() != &all[..count] {
            return "the values differ";
        }
    }
    if Args::of(&[1, 2]) != Args::of(&[1, 2]) {
        return "the same values differ";
    }
    if Args::of(&[1]) == Args::of(&[1, 0]) {
        return "other values are the same";
    }
    OK
}
