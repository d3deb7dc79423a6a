//! Whether arguments give the values that a command requires.

ghost use Rattle.std.specs.Prelude.{◌≡◌, None, map, string_bytes};
ghost use Rattle.command_line.specs.Code.{count_in, is_one, has_forms};

use crate::form::{FILE, form_of};

/// The number of values given to a name; None if an argument isn't allowed or a value is missing.
fn times_given(options: &[&str], name: &str, words: &[String]) -> Option<usize>
    ensures { result ≡
        count_in (map (λ n. n.now) options.now) name.now None (map string_bytes words.now) }
{
    let mut waiting: Option<&str> = None;
    let mut times: usize = 0;
    for word in words {
        let form = form_of(options, waiting, word.as_str());
        if form.is_bad() {
            return None;
        }
        times += usize::from(form.gives_to(name));
        waiting = form.opened();
    }
    match waiting {
        Some(_) => None,
        None => Some(times),
    }
}

/// Whether each argument is allowed and a name is given a value exactly once.
fn is_given_once(options: &[&str], name: &str, words: &[String]) -> bool
    ensures { result ≡
        is_one (count_in (map (λ n. n.now) options.now) name.now None
        (map string_bytes words.now)) }
{
    match times_given(options, name, words) {
        Some(times) => times == 1,
        None => false,
    }
}

/// Whether the arguments, in any order, give the file name and each option exactly once and nothing
/// else.
pub fn gives_each_once(options: &[&str], words: &[String]) -> bool
    ensures { result ≡ has_forms (map (λ n. n.now) options.now) (map string_bytes words.now) }
{
    if !is_given_once(options, FILE, words) {
        return false;
    }
    for option in options {
        if !is_given_once(options, option, words) {
            return false;
        }
    }
    true
}
