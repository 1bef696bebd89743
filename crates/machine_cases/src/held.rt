// A value of several parts that is let go by a call.

ghost use Rattle.std.specs.Prelude.{◌≡◌};

/// A value of several parts that is let go by a call. A function that holds one has that call at each of its ends, in
/// place of code for each part of the value.
pub struct Held<T> {
    pub value: T,
}

impl<T> Held<T> {
    /// The value, for who takes it whole.
    pub fn take(self) -> T
        ensures { result ≡ self.value }
    {
        let Held { value } = self;
        value
    }
}

impl<T: Drop> Drop for Held<T> {
    fn drop(self) {
        let Held { value } = self;
        drop(value);
    }
}
