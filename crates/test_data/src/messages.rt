//! Messages as bytes.

use seq_arith::Sum16;

/// The bytes of a message's header, and more than the longest message has.
const HEADER: usize = 16;

const LONGEST: usize = 4_096;

/// Puts the length and the checksum of a message in their places. Nothing is done where it is shorter than a header, or longer than any message.
pub fn seal(message: &mut [u8]) {
    if message.len() < HEADER || message.len() > LONGEST {
        return;
    }
    let len = (message.len() as u16).to_be_bytes();
    message[4] = len[0];
    message[5] = len[1];
    message[6] = 0;
    message[7] = 0;
    let mut sum = Sum16::new();
    sum.take(message);
    let check = sum.check().to_be_bytes();
    message[6] = check[0];
    message[7] = check[1];
}
