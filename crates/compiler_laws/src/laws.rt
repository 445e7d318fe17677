//! The law, as a contract: a call of the function does nothing, and gives its caller's proof the facts of its clause.
ghost use Rattle.std.specs.Prelude.{List, Ok};
ghost use Rattle.py_tree.specs.declared.stmt.Module.{Module};
ghost use Rattle.py_names.specs.declared.scope.Scope.{Scope};
ghost use Rattle.py_code.specs.declared.program.Program.{Program};
ghost use Rattle.py_code.specs.Right.{IsRightProgram};
ghost use Rattle.py_templates.specs.Compiles.{Compiles};
ghost use Rattle.py_templates.specs.Resolved.{IsResolved};

/// The program that is compiled of a tree, which is one of some tokens by the grammar, with the scopes that it has, is
/// right: what is tested of a program before it runs holds of it. Of another tree the program need not be right: a
/// target that is a number, say, has no code that stores it.
pub fn right_law()
    ensures { (m : Module) (scopes : List Scope) (p : Program) →
        IsResolved m scopes → Compiles m scopes (Ok p) → IsRightProgram p }
{}
