//! What assertions and definitions add.

ghost use Rattle.std.specs.Prelude.{◌≡◌, OnOk, OnErr, false};
ghost use Rattle.qv_elab_scope.specs.Force.{is_taken, is_sort_taken};
ghost use Rattle.qv_script_stack.specs.Changes.{with_assertion, with_definition, with_sort};
ghost use Rattle.qv_script_stack.specs.Held.{Held};
ghost use Rattle.qv_script_stack.specs.Changes.{with_named, IsNamed, IsLabelled, IsLonger, IsMarkOf};

use crate::held::{Mark, Named};
use crate::stack::Stack;
use qv_elab_macros::Body;
use qv_store::{Id, NoMemory};
use qv_words::Sort;
use std::alloc::AllocError;

impl Stack {
    /// Adds an assertion with a name that isn't taken.
    pub fn add_named(&mut self, id: Id, name: &[u8]) -> Result<(), NoMemory>
        requires { is_taken name.now self.old.force ≡ false }
        ensures ok { OnOk result (IsNamed id name.now self.old self.new) }
        ensures err { OnErr result (self.new ≡ self.old) }
    {
        let own = Named {
            name: Vec::from_slice(self.alloc, name)?,
            assertion: self.assertions.len() as u64,
        };
        let body = Body {
            id,
            depths: Vec::new(self.alloc),
        };
        self.hold_named(own, Vec::new(self.alloc), body)?;
        Ok(())
    }

    // The same with what is kept of it.
    fn hold_named(&mut self, own: Named, sorts: Vec<Sort>, body: Body) -> Result<(), NoMemory>
        requires { is_taken own.name.items self.old.force ≡ false }
        ensures ok { OnOk result (self.new ≡ with_named own sorts body self.old) }
        ensures err { OnErr result (self.new ≡ self.old) }
    {
        let id = body.id;
        self.named.reserve(1)?;
        self.assertions.reserve(1)?;
        if self.scope.define(own.name.as_slice(), sorts, body).is_err() {
            return Err(AllocError);
        }
        self.named.push_reserved(own);
        self.assertions.push_reserved(id);
        self.begun = true;
        self.forget();
        Ok(())
    }

    /// Adds an assertion without a name.
    pub fn add_assertion(&mut self, id: Id) -> Result<(), NoMemory>
        ensures ok { OnOk result (self.new ≡ with_assertion id self.old) }
        ensures err { OnErr result (self.new ≡ self.old) }
    {
        self.assertions.reserve(1)?;
        self.assertions.push_reserved(id);
        self.begun = true;
        self.forget();
        Ok(())
    }

    /// Adds a definition of a name that isn't taken.
    pub fn add_definition(
        &mut self,
        name: &[u8],
        sorts: Vec<Sort>,
        body: Body,
    ) -> Result<(), NoMemory>
        requires { is_taken name.now self.old.force ≡ false }
        ensures ok { OnOk result (self.new ≡ with_definition name.now sorts body self.old) }
        ensures err { OnErr result (self.new ≡ self.old) }
    {
        if self.scope.define(name, sorts, body).is_err() {
            return Err(AllocError);
        }
        self.begun = true;
        Ok(())
    }

    /// Defines a name that isn't taken, without parameters, as a term.
    pub fn add_label(&mut self, name: &[u8], id: Id) -> Result<(), NoMemory>
        requires { is_taken name.now self.old.force ≡ false }
        ensures ok { OnOk result (IsLabelled id name.now self.old self.new) }
        ensures err { OnErr result (self.new ≡ self.old) }
    {
        let body = Body {
            id,
            depths: Vec::new(self.alloc),
        };
        self.add_definition(name, Vec::new(self.alloc), body)?;
        Ok(())
    }

    /// How much is defined.
    pub fn mark(&self) -> Mark
        ensures { IsMarkOf result self.now }
    {
        Mark {
            names: self.scope.len(),
            begun: self.begun,
        }
    }

    /// Takes the definitions away that were added behind a mark.
    pub fn undefine(&mut self, mark: Mark)
        requires { (old : Held) × IsMarkOf mark old × IsLonger old self.old }
        ensures { (old : Held) → IsMarkOf mark old → IsLonger old self.old → self.new ≡ old }
    {
        self.scope.undefine(mark.names);
        self.begun = mark.begun;
    }

    /// Defines a name as a sort, which isn't taken.
    pub fn add_sort(&mut self, name: &[u8], sort: Sort) -> Result<(), NoMemory>
        requires { is_sort_taken name.now self.old.force ≡ false }
        ensures ok { OnOk result (self.new ≡ with_sort name.now sort self.old) }
        ensures err { OnErr result (self.new ≡ self.old) }
    {
        self.scope.define_sort(name, sort)?;
        self.begun = true;
        Ok(())
    }
}
