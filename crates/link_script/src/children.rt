//! The calls that a spawner in memory has recorded.

use ft_io::SpawnCall;
use test_data::Said;

/// Says the calls on a spawner, each in a line.
pub fn write_children(calls: &[SpawnCall], said: &mut Said) {
    for call in calls {
        match call {
            SpawnCall::Started(words) => write_start(words.as_slice(), said),
            SpawnCall::Ended(child, status) => write!(said, "ended {} {}\n", *child, *status),
        }
    }
}

/// Says the words of a start as a script spells them.
fn write_start(words: &[String], said: &mut Said) {
    said.add(b"started");
    for word in words {
        said.add(b" ");
        write_word(word.as_bytes(), said);
    }
    said.end_line();
}

fn write_word(word: &[u8], said: &mut Said) {
    for byte in word {
        said.add(&[if *byte == b' ' { b'~' } else { *byte }]);
    }
}
