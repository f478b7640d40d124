//! Messages that are cut into parts.

ghost use Rattle.std.specs.Prelude.{◌≡◌, ◌≤◌, length};
ghost use Rattle.komihash.specs.Hash.{komi};

use komihash::StreamedKomihash;

/// Hashes a message, 4,096 bytes at a time.
pub fn hash_in_chunks(message: &[u8]) -> u64
    ensures { result ≡ komi 5 0 message.now }
{
    let mut stream = StreamedKomihash::new();
    for chunk in message.chunks(4096) {
        stream.write(chunk);
    }
    stream.finish()
}

/// Hashes a message, whose whole blocks are cut off one by one.
pub fn hash_in_blocks(message: &[u8]) -> u64
    ensures { result ≡ komi 5 0 message.now }
{
    let mut stream = StreamedKomihash::new();
    let mut rest = message;
    while rest.len() >= 64 {
        let (block, after) = rest.split_at(64);
        stream.write(block);
        rest = after;
    }
    stream.write(rest);
    stream.finish()
}

/// Hashes a message in three parts, whose ends are given.
pub fn hash_in_three(message: &[u8], first: usize, second: usize) -> u64
    requires order { first ≤ second }
    requires end { second ≤ length message.now }
    ensures { result ≡ komi 5 0 message.now }
{
    let mut stream = StreamedKomihash::new();
    stream.write(&message[..first]);
    stream.write(&message[first..second]);
    stream.write(&message[second..]);
    stream.finish()
}
