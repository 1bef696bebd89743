// The values of a message, at most four.

ghost use Rattle.std.specs.Prelude.{◌≡◌, ◌≤◌, ◌<◌, ◌^◌, ◌==◌, length};
ghost use Rattle.std.specs.List.{AllByRecursion};

use rt_ids::limits::ARGUMENTS;
use std::marker::Model;

/// The values that a message carries, at most four. Contracts see the list of them.
#[derive(Clone, Copy, Debug, PartialEq, Eq)]
pub struct Args {
    count: u8,
    /// Those past `count` are 0.
    values: [u32; ARGUMENTS],
}

impl Model for Args {
    ghost use Rattle.rt_trace.specs.Padded.{IsPadded, padded_values};
    ghost use Rattle.std.specs.Prelude.{ℕ, List, take, length};

    ghost Value = { List ℕ };

    ghost view = { λ args. take args.count args.values };

    ghost invariant = { λ args. IsPadded args.count args.values };

    ghost inverse = { λ values. record { count = length values; values = padded_values values } };

    ghost use Rattle.rt_trace.specs.Given.{args_given_back};

    ghost inverse_ok = { args_given_back };
}

impl Args {
    /// These values.
    pub fn of(values: &[u32]) -> Args
        requires { length values.now ≤ 4 }
        ensures { result ≡ values.now }
    {
        let mut all = [0; ARGUMENTS];
        all[..values.len()].copy_from_slice(values);
        Args {
            count: values.len() as u8,
            values: all,
        }
    }

    /// How many there are.
    pub fn len(&self) -> usize
        ensures { result ≡ length self.now }
    {
        usize::from(self.count)
    }

    /// Whether there is none.
    pub fn is_empty(&self) -> bool
        ensures { result ≡ (length self.now == 0) }
    {
        self.count == 0
    }

    /// The values, in order.
    pub fn values(&self) -> &[u32]
        ensures value { result.now ≡ self.now }
        ensures words { AllByRecursion (λ value. value < 2 ^ 32) self.now }
        ensures few { length self.now ≤ 4 }
    {
        words(&self.values[..self.len()])
    }
}

/// These values, each of 32 bits.
fn words(values: &[u32]) -> &[u32]
    ensures value { result.now ≡ values.now }
    ensures words { AllByRecursion (λ value. value < 2 ^ 32) values.now }
{
    values
}
