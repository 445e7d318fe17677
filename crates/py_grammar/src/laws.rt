//! The laws of the grammar, as contracts: a call of such a function does nothing, and gives its caller's proof the
//! facts of its clauses.
ghost use Rattle.std.specs.Prelude.{◌≡◌, ℕ, ◌<◌, ◌≤◌, List, [], length, Ok, Err};
ghost use Rattle.py_tokens.specs.Layout.{tokens_of_text};
ghost use Rattle.py_tokens.specs.Stream.{IsStream};
ghost use Rattle.py_tokens.specs.declared.token.Token.{Token};
ghost use Rattle.py_tree.specs.declared.stmt.Module.{Module};
ghost use Rattle.py_tree.specs.Tall.{tall_module};
ghost use Rattle.py_grammar.specs.declared.fault.Fault.{Fault};
ghost use Rattle.py_grammar.specs.Statements.{IsModule};
ghost use Rattle.py_grammar.specs.Refused.{RefusedAt, EndsOnce};
ghost use Rattle.py_grammar.specs.inner.Lines.{module_at};
ghost use Rattle.py_grammar.specs.Words.{line_of};

/// Reading a list of tokens, in which End stands once, as the last, answers its module, of a height of at most 100,
/// wherever there is one, and else refuses the first token with which no such module begins. It refuses the tokens so
/// where and only where they are refused so, and a list of tokens has one module at most.
pub fn grammar_law()
    ensures found { (ts : List Token) (m : Module) (rest : List Token)
        → EndsOnce ts → module_at (length ts) ts ≡ Ok (m, rest)
        → IsModule m ts × (tall_module m ≤ 100) }
    ensures only { (ts : List Token) (m : Module)
        → IsModule m ts → tall_module m ≤ 100
        → module_at (length ts) ts ≡ Ok (m, []) }
    ensures refused { (ts : List Token) (f : Fault) (rest : List Token)
        → EndsOnce ts → module_at (length ts) ts ≡ Err (f, rest)
        → RefusedAt ts f (line_of rest) }
    ensures stops { (ts : List Token) (f : Fault) (line : ℕ) → EndsOnce ts → RefusedAt ts f line →
        (rest : List Token) × (module_at (length ts) ts ≡ Err (f, rest)) × (line ≡ line_of rest) }
    ensures one { (ts : List Token) (m n : Module) → IsModule m ts → IsModule n ts → m ≡ n }
{}

/// In the tokens of a text End stands once, as the last, as `parse` asks; so it does in each stream, as which `tokens`
/// of `py_tokens` says its answer.
pub fn ends_law()
    ensures text { (text : List ℕ) (ts : List Token) → tokens_of_text text ≡ Ok ts → EndsOnce ts }
    ensures stream { (size at depth : ℕ) (ts : List Token) → IsStream size at depth ts → EndsOnce ts }
{}
