//! The least of many keys.

ghost use Rattle.std.specs.Prelude.{◌≡◌, fold};
ghost use Rattle.smil_model.specs.happening.Keys;
ghost use Rattle.smil_model.specs.happening.Keys.{least_key};

use super::order::comes_before;
use smil_model::Key;

/// The least key, which happens first; of equal ones the first in the slice. None exactly where
/// there is no key. It takes no memory.
pub fn least_scan(keys: &[Key]) -> Option<Key>
    ensures { result ≡ least_key keys.now }
{
    keys.iter()
        .copied()
        .fold(None, |least, key| earlier(least, key))
}

// The earlier of two keys, of which the first may be absent; of equal ones the first.
fn earlier(least: Option<Key>, key: Key) -> Option<Key>
    ensures { result ≡ Keys.earlier_key least key }
{
    match least {
        None => Some(key),
        Some(other) => {
            if comes_before(key, other) {
                Some(key)
            } else {
                least
            }
        }
    }
}
