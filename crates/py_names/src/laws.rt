//! The laws of scopes, as contracts: a call of such a function does nothing, and gives its caller's proof the facts of
//! its clauses.
ghost use Rattle.std.specs.Prelude.{◌≡◌, ℕ, List, ◌&&◌, not};
ghost use Rattle.std.specs.List.{IsDistinct};
ghost use Rattle.std.specs.Str.{bytes_eq};
ghost use Rattle.py_names.specs.declared.event.Event.{Event};
ghost use Rattle.py_base.specs.NameLists.{has};
ghost use Rattle.py_names.specs.Scopes.{no_names, names_from, scope_of};
ghost use Rattle.py_names.specs.ScopeLaws.{mentions, is_own};

/// A name is among a body's local names exactly where the body, which isn't a module's, binds it and no `global` in it
/// names it; it is among the others exactly where the body mentions it and it isn't local. No name stands twice in
/// either list.
pub fn scope_law()
    ensures local { (es : List Event) (n : List ℕ) → has n (scope_of (names_from no_names es)).locals ≡ is_own es n }
    ensures others { (es : List Event) (n : List ℕ)
        → has n (scope_of (names_from no_names es)).globals ≡ (mentions es n && not (is_own es n)) }
    ensures locals_once { (es : List Event) → IsDistinct bytes_eq (scope_of (names_from no_names es)).locals }
    ensures others_once { (es : List Event) → IsDistinct bytes_eq (scope_of (names_from no_names es)).globals }
{}
