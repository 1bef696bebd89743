// What resolution answers: an application, and what is wrong with its names.

ghost use Rattle.std.specs.Prelude.{◌≡◌};

use rt_app::{App, Violation};

/// An application with its names resolved, and what is wrong with its names.
pub struct Resolved {
    pub app: App,
    /// Every unknown name and every name that is declared twice.
    pub faults: Vec<Violation>,
}

impl Drop for Resolved {
    fn drop(self) {
        let Resolved { app: _, faults: _ } = self;
    }
}

impl Resolved {
    /// The application alone.
    pub fn into_app(self) -> App
        ensures { result ≡ self.app }
    {
        let Resolved { app, faults: _ } = self;
        app
    }
}
