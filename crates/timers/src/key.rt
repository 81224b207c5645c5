// A key that is known to be one of the 64.
ghost use Rattle.std.specs.Prelude.{◌≡◌, ◌<◌, ◌≤◌, MatchResult};

use crate::meaning::NoSuchKey;

const LAST_KEY: u8 = 63;

// One of the keys 0 to 63. The type keeps its index below 64, so that a table is read without a test.
#[derive(Clone, Copy)]
pub struct Key {
    pub index: usize,
    ghost below: { index < 64 },
}

impl TryFrom<u8> for Key {
    type Error = NoSuchKey;

    ghost try_from_gives = { λ n r. MatchResult r (λ key. (n < 64) × (key.index ≡ n)) (λ _. 64 ≤ n) };

    fn try_from(key: u8) -> Result<Key, NoSuchKey> {
        if key > LAST_KEY {
            return Err(NoSuchKey);
        }
        Ok(Key {
            index: key as usize,
        })
    }
}
