//! Words separated by spaces, and decimal numbers.

ghost use Rattle.std.specs.Prelude.{◌≡◌, ◌==◌, [], is_some, MatchOption};
ghost use Rattle.std.specs.List.{list_any};
ghost use Rattle.cadf_linefile.specs.Numbers.{number_in, first_word, words_after};

use memchr::memchr;

/// Returns the bytes before the first space, and those after it. `None` if and only if there is no space.
pub fn cut_at_blank(text: &[u8]) -> Option<(&[u8], &[u8])>
    ensures blank { is_some result ≡ list_any (λ x. x == 32) text.now }
    ensures cut { MatchOption result (words_after text.now ≡ []) (λ cut. (cut.0.now ≡ first_word text.now) × (cut.1.now ≡ words_after text.now)) }
{
    let at = memchr(b' ', text)?;
    Some((&text[..at], &text[at + 1..]))
}

/// Returns the number of 64 bits whose decimal digits are the word. `None` if there is none.
pub fn number_in(word: &[u8]) -> Option<u64>
    ensures { result ≡ number_in word.now }
{
    let number = str::from_utf8(word).ok()?.parse::<u64>().ok()?;
    let mut buffer = itoa::Buffer::new();
    (word == buffer.format(number).as_bytes()).then_some(number)
}
