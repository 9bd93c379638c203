//! What a restart takes from the fetched entries.

ghost use Rattle.std.specs.Prelude.{◌≡◌, ◌++◌, ◌∷◌, ◌&&◌, [], not, find, MatchOption, option_copied};
ghost use Rattle.ft_io.specs.Key.{key_eq};

use crate::fetched::PlainFetched;
use crate::fetching::PlainFetching;
use ft_io::Key;

/// Returns the entry of a key, if it isn't done.
fn find_live(entries: &[PlainFetched], key: Key) -> Option<&PlainFetched>
    ensures { option_copied result ≡ find (λ f. key_eq f.head.key key && not f.head.done) entries.now }
{
    entries
        .iter()
        .find(|entry| entry.head.key == key && !entry.head.done)
}

impl PlainFetching {
    ghost use Rattle.ft_model.specs.Restart.{live_entry};

    /// Returns the fetched entry of a client, if it isn't done.
    pub fn live_entry(&self, key: Key) -> Option<&PlainFetched>
        ensures { option_copied result ≡ live_entry key self.now }
    {
        find_live(self.entries.as_slice(), key)
    }

    /// Removes the oldest entry and returns it.
    pub fn pop(&mut self) -> Option<PlainFetched>
        ensures { MatchOption result ((self.old ≡ []) × (self.new ≡ [])) (λ f. self.old ≡ self.new ++ f ∷ []) }
    {
        self.entries.pop()
    }
}
