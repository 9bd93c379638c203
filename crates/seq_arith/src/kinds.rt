//! The kinds of messages between server and logger, the fields that they are made of, and why a string of bytes is no message.

/// Why a string of bytes is no message: the first test of the message grammar that it fails, in this order.
#[derive(Clone, Copy, Debug, PartialEq, Eq)]
pub enum BadMsg {
    /// There are fewer than 16 bytes.
    Short,
    /// The first two bytes aren't the magic.
    Magic,
    /// The version isn't the grammar's.
    Version,
    /// The kind isn't 1 to 18.
    Kind,
    /// The length isn't the count of bytes, or isn't one of the kind's.
    Length,
    /// The message doesn't sum to its checksum.
    Sum,
    /// A field is outside its range.
    Field,
}

/// How a server and its logger write their messages. Both use the same grammar as long as the log lasts, and read no message of the other one.
#[derive(Clone, Copy, Debug, PartialEq, Eq)]
pub enum Grammar {
    /// Version 1. Every Data is answered.
    Plain,
    /// Version 2. Of the Data that one turn sends of a connection, only the last is answered.
    Wide,
}

/// The kinds of messages, each with its number on the wire. Those that answer another are listed after what they answer.
#[derive(Clone, Copy)]
pub enum Kind {
    /// A server has started.
    Hello = 1,
    /// How many entries the log has.
    Summary = 2,
    /// Asks for the entry at an index.
    List = 3,
    /// An entry without its bytes and lengths.
    Entry = 4,
    /// Asks for logged bytes.
    Bytes = 5,
    /// Logged bytes.
    Part = 6,
    /// Asks for logged lengths of reads.
    Cuts = 7,
    /// Logged lengths of reads.
    Lens = 8,
    /// Asks for an entry for a new connection.
    Open = 9,
    /// The connection has an entry, with these numbers.
    Opened = 10,
    /// Bytes to be logged.
    Data = 11,
    /// How much is logged, as an answer to bytes.
    Stable = 12,
    /// The length of a read to be logged.
    Read = 13,
    /// How much is logged, as an answer to a read.
    Reads = 14,
    /// A connection has ended.
    Done = 15,
    /// The end of the connection is logged.
    Ended = 16,
    /// A server with a larger boot number has started.
    Stale = 17,
    /// There is no room for another connection.
    Full = 18,
}

/// What a number in a message means, which determines its size and its range.
#[derive(Clone, Copy)]
pub enum Field {
    /// A count of log entries.
    Count,
    /// The place of a log entry.
    Place,
    /// The address of a key.
    Address,
    /// The port of a key.
    Port,
    /// An initial sequence number.
    Initial,
    /// A segment size.
    Mss,
    /// A count of logged bytes.
    Length,
    /// Where bytes begin in a stream.
    Offset,
    /// A count of units: reads, or bytes with the FIN after them.
    Units,
    /// The length of a read.
    ReadLength,
    /// A flag: 0 or 1.
    Flag,
    /// Whether the FIN follows the bytes of a Data, and in the wide grammar also whether a later Data of the same turn does.
    Ending,
    /// A boot number above the message's own.
    Newer,
}
