//! Lists of names, joined by commas.
ghost use Rattle.std.specs.Prelude.{◌≡◌};
ghost use Rattle.requests.specs.Names.{are_names, is_among, name_at, names_of};

use grammar::is_name;

// Whether a name is in a list.
fn is_among(name: &str, list: &str) -> bool
    ensures { result ≡ is_among name.now (names_of list.now) }
{
    let mut rest = list;
    while let Some((other, others)) = rest.split_once(',') {
        if name == other {
            return true;
        }
        rest = others;
    }
    name == rest
}

/// Whether a list has names alone, and none of them twice.
pub(crate) fn are_names(list: &str) -> bool
    ensures { result ≡ are_names (names_of list.now) }
{
    let mut rest = list;
    while let Some((name, others)) = rest.split_once(',') {
        if !is_name(name.as_bytes()) {
            return false;
        }
        if is_among(name, others) {
            return false;
        }
        rest = others;
    }
    is_name(rest.as_bytes())
}

/// The name in this place of a list, from 0; empty if there is none.
pub(crate) fn name_at<'a>(list: &'a str, place: usize) -> &'a str
    ensures { result.now ≡ name_at place (names_of list.now) }
{
    let mut rest = list;
    let mut left = place;
    while let Some((name, others)) = rest.split_once(',') {
        if left == 0 {
            return name;
        }
        left -= 1;
        rest = others;
    }
    if left == 0 { rest } else { "" }
}
