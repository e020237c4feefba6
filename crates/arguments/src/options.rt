//! Which of some words are options, and which plain words.

ghost use Rattle.std.specs.Prelude.{◌≡◌, ◌++◌, ◌∷◌, [], ℕ, List, map, option_map, string_bytes};
ghost use Rattle.std.specs.List.{list_all};
ghost use Rattle.arguments.specs.Words.{IsFound, after_prefix, has_head, is_option, only_options, plain_words, values};

/// What is found among words that may hold it once at most.
#[derive(Clone, Copy)]
pub enum Found<'a> {
    Nothing,
    Once(&'a [u8]),
    Again,
}

/// What was found, with one more.
fn one_more<'a>(found: Found<'a>, text: &'a [u8]) -> Found<'a>
    ensures { (texts : List (List ℕ)) → IsFound found.entry texts → IsFound result (texts ++ text.now ∷ []) }
{
    match found {
        Found::Nothing => Found::Once(text),
        _ => Found::Again,
    }
}

/// Whether a word is an option: one that begins with `-`.
fn is_option(word: &[u8]) -> bool
    ensures { result ≡ is_option word.now }
{
    match word {
        [b'-', ..] => true,
        _ => false,
    }
}

/// What follows a prefix.
fn after<'a>(text: &'a [u8], prefix: &[u8]) -> Option<&'a [u8]>
    ensures { option_map (λ x. x.now) result ≡ after_prefix prefix.now text.now }
{
    text.strip_prefix(prefix)
}

/// Whether a word begins with one of the heads `--name=`.
fn has_head(word: &[u8], heads: &[&[u8]]) -> bool
    ensures { result ≡ has_head (map (λ h. h.now) heads.now) word.now }
{
    for head in heads {
        if after(word, head).is_some() {
            return true;
        }
    }
    false
}

/// Whether each word begins with one of the heads `--name=`.
pub fn are_options(words: &[String], heads: &[&[u8]]) -> bool
    ensures { result ≡ list_all (has_head (map (λ h. h.now) heads.now)) (map string_bytes words.now) }
{
    for word in words {
        if !has_head(word.as_bytes(), heads) {
            return false;
        }
    }
    true
}

/// Whether each option has one of the heads `--name=`.
#[tactic(auto, unfolding(crate::specs::Words::only_options))]
pub fn only_options(words: &[String], heads: &[&[u8]]) -> bool
    ensures { result ≡ only_options (map (λ h. h.now) heads.now) (map string_bytes words.now) }
{
    for word in words {
        if is_option(word.as_bytes()) && !has_head(word.as_bytes(), heads) {
            return false;
        }
    }
    true
}

/// The value of the option with this head `--name=`.
#[tactic(auto, unfolding(crate::specs::Words::values))]
pub fn value_of<'a>(words: &'a [String], head: &[u8]) -> Found<'a>
    ensures { IsFound result (values head.now (map string_bytes words.now)) }
{
    let mut found = Found::Nothing;
    for word in words {
        if let Some(value) = after(word.as_bytes(), head) {
            found = one_more(found, value);
        }
    }
    found
}

/// The plain word.
#[tactic(auto, unfolding(crate::specs::Words::plain_words))]
pub fn plain_word(words: &[String]) -> Found<'_>
    ensures { IsFound result (plain_words (map string_bytes words.now)) }
{
    let mut found = Found::Nothing;
    for word in words {
        if !is_option(word.as_bytes()) {
            found = one_more(found, word.as_bytes());
        }
    }
    found
}
