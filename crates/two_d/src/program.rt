ghost use Rattle.std.specs.Prelude.{◌≡◌, ◌<◌, length, IfSome};
ghost use Rattle.std.specs.Option.{unwrap_or};
ghost use Rattle.two_d.specs.Good.{IsGood, IsKept, orders_in};
ghost use Rattle.two_d.specs.inner.NameLists.{listed};
ghost use Rattle.two_d.specs.Programs.{modules_of, main_of, find, module_at};
ghost use Rattle.two_d.specs.Sound.{IsKeptOrder};

use crate::names::number_of;
use crate::{Module, Name};
use indexmap::IndexSet;
use std::marker::Model;

/// A good program: its modules, where `main` is among them, and the kept order of the boxes of each.
#[derive(Drop)]
pub struct Program {
    modules: Vec<Module>,
    // The names of the modules, by number.
    names: IndexSet<Vec<u8>>,
    main: usize,
    orders: Vec<Vec<usize>>,
}

impl Model for Program {
    ghost use Rattle.std.specs.Prelude.{List};
    ghost use Rattle.std.specs.Coded.{codes};
    ghost use Rattle.two_d.specs.inner.Codes.{coded_tree};
    ghost use Rattle.two_d.specs.Programs.{ModuleForm, modules_of};
    ghost use Rattle.two_d.specs.Good.{IsKept, orders_in};
    ghost use Rattle.two_d.specs.inner.NameLists.{listed};

    ghost Value = { List ModuleForm };

    ghost coded = { Prim.hlevel (codes, coded_tree) };

    ghost view = { λ program. modules_of program.modules.items };

    ghost invariant = { λ program. IsKept (modules_of program.modules.items) (listed program.names)
        program.main (orders_in program.orders.items) };
}

impl Program {
    /// The program of these modules, with their names, where `main` is and the kept order of each.
    pub(crate) fn from_parts(
        modules: Vec<Module>,
        names: IndexSet<Vec<u8>>,
        main: usize,
        orders: Vec<Vec<usize>>,
    ) -> Program
        requires { IsKept (modules_of modules.items) (listed names) main (orders_in orders.items) }
        ensures { result ≡ modules_of modules.items }
    {
        Program {
            modules,
            names,
            main,
            orders,
        }
    }

    /// The modules, in the order of their numbers. Takes no memory.
    pub fn modules(&self) -> &Vec<Module>
        ensures modules { modules_of result.now.items ≡ self.now }
        ensures good { IsGood self.now }
    {
        &self.modules
    }

    /// The number of the module `main`. Takes no memory.
    pub fn main(&self) -> usize
        ensures main { result ≡ main_of self.now }
        ensures good { IsGood self.now }
    {
        self.main
    }

    /// The number of the module of this name. Constant time, and it takes no memory.
    pub fn find(&self, name: &Name) -> Option<usize>
        ensures number { unwrap_or result (length self.now) ≡ find self.now name.now }
        ensures there { IfSome result (λ m. m < length self.now) }
    {
        number_of(&self.names, name.bytes())
    }

    /// The kept order of the boxes of a module. Takes no memory.
    pub fn order(&self, module: usize) -> &Vec<usize>
        requires { «module» < length self.now }
        ensures { IsKeptOrder (module_at self.now «module») result.now.items }
    {
        &self.orders[module]
    }
}
