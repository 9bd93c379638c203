//! The arguments of a generated run.

ghost use Rattle.std.specs.Prelude.{◌≡◌, ◌≤◌, map, string_bytes, IfSome};
ghost use Rattle.replay_seed.specs.SeedWords.{asked as asked_lem};

use schedule_text::read_number;

/// What a generated run is asked for.
#[derive(Clone, Copy)]
pub struct Asked {
    /// The initial state of the generator.
    pub seed: u64,
    /// How many clients there are, 1 to 16.
    pub clients: u8,
    /// How many events are drawn, 1 to 20,000; the first boots the server.
    pub events: u32,
}

impl Asked {
    /// Reads the arguments `seed SEED CLIENTS EVENTS`. Returns `None` if they have another form, or a number is misspelled or out of range.
    pub fn from_words(words: &[String]) -> Option<Asked>
        ensures value { result ≡ asked_lem (map string_bytes words.now) }
        ensures clients { IfSome result (λ asked. (1 ≤ asked.clients) × (asked.clients ≤ 16)) }
        ensures events { IfSome result (λ asked. (1 ≤ asked.events) × (asked.events ≤ 20000)) }
    {
        let [word, seed, clients, events] = words else {
            return None;
        };
        if word.as_str() != "seed" {
            return None;
        }
        let seed = read_number(seed.as_bytes(), 0, u64::MAX)?;
        let clients = read_number(clients.as_bytes(), 1, 16)? as u8;
        let events = read_number(events.as_bytes(), 1, 20_000)? as u32;
        Some(Asked {
            seed,
            clients,
            events,
        })
    }
}
