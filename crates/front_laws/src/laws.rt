//! The laws, as contracts: a call of such a function does nothing, and gives its caller's proof the facts of its
//! clauses.
ghost use Rattle.std.specs.Prelude.{◌≡◌, ℕ, ◌<◌, ◌≤◌, Bool, true, ◌⊎◌, List, [], ◌∷◌, length, Option, Some, None, Ok, Err, All};
ghost use Rattle.py_base.specs.declared.refusal.Refusal.{Refusal};
ghost use Rattle.py_base.specs.declared.refusal.Refusal.TheVariants.{BadCharacter, BadDedent};
ghost use Rattle.py_tokens.specs.Characters.{text_characters};
ghost use Rattle.py_tokens.specs.Layout.{tokens_of_text};
ghost use Rattle.py_tokens.specs.declared.character.Character.{Character};
ghost use Rattle.py_tokens.specs.declared.token.Token.{Token};
ghost use Rattle.py_tokens.specs.declared.token.TokenKind.{TokenKind};
ghost use Rattle.py_tree.specs.Canonical.{module_text};
ghost use Rattle.py_tree.specs.Form.{form, is_target};
ghost use Rattle.py_tree.specs.Tall.{tall_module};
ghost use Rattle.py_tree.specs.declared.expr.Expr.{Expr};
ghost use Rattle.py_tree.specs.declared.stmt.Module.{Module};
ghost use Rattle.py_grammar.specs.Refused.{EndsOnce, RefusedAt};
ghost use Rattle.py_grammar.specs.Statements.{IsModule};
ghost use Rattle.py_grammar.specs.declared.fault.Fault.{Fault};
ghost use Rattle.front_laws.specs.Fronts.{HasNoFront};
ghost use Rattle.front_laws.specs.Pieces.{BeginsString, IsNoSpace, Pieces, in_line};
ghost use Rattle.front_laws.specs.Spells.{Spells};
ghost use Rattle.front_laws.specs.Targets.{IsTarget};
ghost use Rattle.front_laws.specs.Trees.{IsTree};

use canonical_laws::canonical_law;
use py_grammar::grammar_law;

/// The tokens of a text, but for those of its layout, are its longest pieces from the front on, up to its end. A text
/// without tokens has a bad dedent, or its pieces end at a place for a cause of that refusal. Where no front of what
/// follows spells a token, and neither a space nor a string begins, this is a bad character. Characters spell one token
/// at most.
pub fn spelling_law()
    ensures tokens { (text : List ℕ) (ts : List Token) → tokens_of_text text ≡ Ok ts →
        Pieces (length text) (text_characters text) (in_line ts) None }
    ensures refused { (text : List ℕ) (e : Refusal) → tokens_of_text text ≡ Err e →
        ((line : ℕ) × (e ≡ BadDedent line))
        ⊎ ((ts : List Token) × Pieces (length text) (text_characters text) ts (Some e)) }
    ensures bad { (size : ℕ) (c : Character) (cs : List Character) (ts : List Token) (e : Option Refusal) →
        IsNoSpace c cs → HasNoFront (c ∷ cs) →
        (BeginsString (c ∷ cs) → ⊥) → Pieces size (c ∷ cs) ts e → (ts ≡ []) × (e ≡ Some (BadCharacter c.line)) }
    ensures one { (cs : List Character) (a b : TokenKind) → Spells cs a → Spells cs b → a ≡ b }
{}

/// The attribute by which the parser tells a target is the relation of `specs/Targets`: a name, an attribute, a
/// subscript, or a group, a list or a tuple of targets (`[]` is one, and `()` none); the truth value says whether
/// slices count.
pub fn target_law()
    ensures some { (slices : Bool) (a : Expr) → is_target slices (form a) ≡ true → IsTarget slices a }
    ensures only { (slices : Bool) (a : Expr) → IsTarget slices a → is_target slices (form a) ≡ true }
{}

/// A list of tokens, in which End stands once, as the last, has a module of a height of at most 100, or it is refused
/// at the first token with which no such module begins; and not both. It has one module at most, and one refusal at
/// most: at one line, for one reason, and where something that the language leaves out is that, for one construct.
pub fn tree_law()
    ensures some { (ts : List Token) → EndsOnce ts →
        ((m : Module) × IsModule m ts × (tall_module m ≤ 100)) ⊎ ((f : Fault) × (line : ℕ) × RefusedAt ts f line) }
    ensures never_both { (ts : List Token) (m : Module) (f : Fault) (line : ℕ) →
        IsModule m ts → tall_module m ≤ 100 → RefusedAt ts f line → ⊥ }
    ensures one { (ts : List Token) (m n : Module) → IsModule m ts → IsModule n ts → m ≡ n }
    ensures one_refusal { (ts : List Token) (f g : Fault) (i j : ℕ) → EndsOnce ts →
        RefusedAt ts f i → RefusedAt ts g j → (f ≡ g) × (i ≡ j) }
{
    grammar_law();
}

/// The tree of a text is the tree of its canonical text, and a text has one tree at most: what `module_text` writes is
/// read as the module that was written, and as no other.
pub fn round_law()
    ensures again { (text : List ℕ) (m : Module) → All (λ b. b < 256) text →
        IsTree text m → IsTree (module_text m) m }
    ensures one { (text : List ℕ) (m n : Module) → IsTree text m → IsTree text n → m ≡ n }
{
    canonical_law();
    grammar_law();
}
