// What is declared by a name: interrupts, tasks, and resources of both kinds.
ghost use Rattle.std.specs.Prelude.{◌≡◌};
ghost use Rattle.rt_ast.specs.declared.ident.Ident.{Ident};

use rt_ast::{Ident, IrqTree, LocalTree, SharedTree, TaskTree};

/// What is declared by a name.
pub(crate) trait Named {
    /// Its name, and where it stands.
    ghost ident: { Self → Ident };

    /// Its name, and where it stands.
    fn ident(&self) -> &Ident
        ensures { result.now ≡ ident self.now };
}

impl Named for IrqTree {
    ghost ident = { λ irq. irq.name };

    fn ident(&self) -> &Ident {
        &self.name
    }
}

impl Named for SharedTree {
    ghost ident = { λ shared. shared.name };

    fn ident(&self) -> &Ident {
        &self.name
    }
}

impl Named for LocalTree {
    ghost ident = { λ local. local.name };

    fn ident(&self) -> &Ident {
        &self.name
    }
}

impl Named for TaskTree {
    ghost ident = { λ task. task.name };

    fn ident(&self) -> &Ident {
        &self.name
    }
}
