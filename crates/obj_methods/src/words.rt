//! Strings with their texts, to be put in order.
ghost use Rattle.std.specs.Prelude.{◌≡◌, [], ◌∷◌, ◌++◌, map, IfOk};
ghost use Rattle.py_data.specs.Comparing.{order_bytes};
ghost use Rattle.obj_methods.specs.Sorting.{in_order, value_of, word_less};

use py_base::split;
use py_data::{Bytes, NoMemory, Value, Values};
use std::alloc::Global;
use std::cmp::Ordering;
use std::marker::Model;

/// The address of a string as a value, and its bytes.
#[derive(Debug, Drop)]
pub struct Word {
    pub text: Bytes,
    pub value: Value,
}

/// Strings in an order. Contracts see the list of them.
#[derive(Debug, Drop)]
pub struct Words {
    words: Vec<Word>,
}

impl Model for Words {
    ghost use Rattle.std.specs.Prelude.{List};
    ghost use Rattle.obj_methods.specs.declared.words.Word.{Word};

    ghost Value = { List Word };

    ghost view = { λ w. w.words.items };
}

/// The order of two texts, by the first bytes that differ.
fn compare_texts(x: &[u8], y: &[u8]) -> Ordering
    ensures { result ≡ order_bytes x.now y.now }
{
    x.cmp(y)
}

/// The values of strings, in their order.
fn values_of(alloc: Global, words: &[Word]) -> Result<Values, NoMemory>
    ensures { IfOk result (λ vs. vs ≡ map value_of words.now) }
{
    let mut values = Values::new(alloc);
    let mut rest = words;
    'turns: while let Some((word, more)) = split(rest) {
        values.push(word.value)?;
        rest = more;
    }
    Ok(values)
}

impl Words {
    /// No strings. It takes no memory.
    pub fn new(alloc: Global) -> Words
        ensures { result ≡ [] }
    {
        Words {
            words: Vec::new(alloc),
        }
    }

    /// The same with one more at the end.
    pub fn with(self, text: Bytes, value: Value) -> Result<Words, NoMemory>
        ensures { IfOk result (λ ws. ws ≡ self ++ record { text = text; value = value } ∷ []) }
    {
        let mut words = self.words;
        words.push(Word { text, value })?;
        Ok(Words { words })
    }

    /// The same in the order of their texts. Those with equal texts stay in their order.
    pub fn sorted(self) -> Result<Words, NoMemory>
        ensures { IfOk result (λ ws. ws ≡ in_order word_less self) }
    {
        let mut words = self.words;
        words.sort_by(|x, y| compare_texts(x.text.as_slice(), y.text.as_slice()))?;
        Ok(Words { words })
    }

    /// The values, in their order.
    pub fn values(&self, alloc: Global) -> Result<Values, NoMemory>
        ensures { IfOk result (λ vs. vs ≡ map value_of self.now) }
    {
        values_of(alloc, self.words.as_slice())
    }
}
