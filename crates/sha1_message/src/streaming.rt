// A message that comes a byte at a time.
ghost use Rattle.std.specs.Prelude.{◌≡◌, ◌+◌, ◌<◌, ◌^◌, length};
ghost use Rattle.sha1_message.specs.Stream.{nothing, begin as begin_spec, join as join_spec, join_all, finish as finish_spec};

use super::Stream;
use super::padding::close;
use sha1_block::block::{FIRST, compress};

// A byte joins the parts of a stream, whatever its count, which stays the caller's. The tail is lent, since a copy of it for each byte would take
// most of the time.
#[tactic(auto, unfolding(crate::specs::Stream::join))]
pub fn join_lent(h: [u32; 5], count: u32, tail: &mut [u8; 64], b: u8) -> [u32; 5]
    ensures value { result ≡ (join_spec (record { h = h; tail = tail.old; count = count }) b).h }
    ensures tail_after { tail.new ≡ (join_spec (record { h = h; tail = tail.old; count = count }) b).tail }
{
    // `as`, since std has no From of a u32 for usize, and a try_from would have an Err that cannot come.
    let at = (count % 64) as usize;
    tail[at] = b;
    if at != 63 {
        return h;
    }
    let next = compress(h, tail);
    *tail = [0; 64];
    next
}

impl Stream {
    // What stands for no message.
    pub fn nothing() -> Stream
        ensures { result ≡ nothing }
    {
        Stream {
            h: [0; 5],
            tail: [0; 64],
            count: 0,
        }
    }

    // The message of no byte.
    pub fn begin() -> Stream
        ensures { result ≡ begin_spec }
    {
        Stream {
            h: FIRST,
            tail: [0; 64],
            count: 0,
        }
    }

    // A byte joins, in place.
    #[tactic(auto, unfolding(crate::specs::Stream::join))]
    pub fn push(&mut self, b: u8)
        requires { self.old.count + 1 < 2 ^ 32 }
        ensures { self.new ≡ join_spec self.old b }
    {
        self.h = join_lent(self.h, self.count, &mut self.tail, b);
        self.count += 1;
    }

    // The bytes of a slice join, one after the other.
    pub fn push_all(&mut self, m: &[u8])
        requires { self.old.count + length m.now < 2 ^ 32 }
        ensures { self.new ≡ join_all self.old m.now }
    {
        // In locals, since through `self` the words are copied for each byte, which takes a third longer.
        let Stream {
            mut h,
            mut tail,
            mut count,
        } = *self;
        for b in m {
            let next = join_lent(h, count, &mut tail, *b);
            h = next;
            count += 1;
        }
        *self = Stream { h, tail, count };
    }

    // The message with one byte more, by value, as the record goes (B-10).
    pub fn join(mut self, b: u8) -> Stream
        requires { self.count + 1 < 2 ^ 32 }
        ensures { result ≡ join_spec self b }
    {
        self.push(b);
        self
    }

    // The digest of the bytes that joined.
    pub fn finish(self) -> [u8; 20]
        ensures { result ≡ finish_spec self }
    {
        close(self.h, &self.tail, u64::from(self.count))
    }
}
