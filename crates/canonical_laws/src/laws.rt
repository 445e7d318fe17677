//! The law, as a contract: a call of the function does nothing, and gives its caller's proof the facts of its clause.
ghost use Rattle.std.specs.Prelude.{◌≡◌, ℕ, ◌<◌, List, Ok, All};
ghost use Rattle.py_tokens.specs.Layout.{tokens_of_text};
ghost use Rattle.py_tokens.specs.declared.token.Token.{Token};
ghost use Rattle.py_tree.specs.Canonical.{module_text};
ghost use Rattle.py_tree.specs.declared.stmt.Module.{Module};
ghost use Rattle.py_grammar.specs.Statements.{IsModule};

/// The canonical text of a module that is the tree of some text has tokens, and these have this module again.
pub fn canonical_law()
    ensures { (text : List ℕ) (ts : List Token) (m : Module)
        → All (λ b. b < 256) text → tokens_of_text text ≡ Ok ts → IsModule m ts
        → (us : List Token) × (tokens_of_text (module_text m) ≡ Ok us) × IsModule m us }
{}
