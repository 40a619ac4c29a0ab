// Hashes known messages, at once and by the stream, and shows each digest beside the one that is expected.
#![tactic(auto)]

ghost use Rattle.std.specs.Prelude.{◌<◌, length};

use sha1_message::Stream;

// A known message, its digest, and what is printed of it; `short` is far below what a hash or a stream takes.
#[derive(Clone, Copy)]
struct Vector<'a> {
    name: &'a str,
    message: &'a [u8],
    expected: &'a str,
    ghost short: { length message.now < 4096 },
}

impl Vector<'_> {
    // What was hashed and how, the digest that came, the expected one, and whether they are the same. What cannot be written is left out, and no more
    // of the line than that.
    fn show_digest(self, rt: &impl Print, way: &str, digest: [u8; 20]) {
        let got = sha1_text::hex(digest);
        let verdict = if got.as_slice() == self.expected.as_bytes() {
            "ok"
        } else {
            "DIFFERS"
        };
        let _ = rt.print(self.name);
        let _ = rt.print(way);
        let _ = rt.write_all(&got);
        let _ = rt.print("  ");
        let _ = rt.print(self.expected);
        let _ = println!(rt; "  {verdict}");
    }

    // At once and by the stream.
    fn show(self, rt: &impl Print) {
        self.show_digest(rt, "at once  ", sha1_message::hash(self.message));
        let mut s = Stream::begin();
        s.push_all(self.message);
        self.show_digest(rt, "stream   ", s.finish());
    }
}

// The messages of FIPS 180 that fit in a buffer.
fn fips(rt: &impl Print) {
    for vector in [
        Vector {
            name: "empty message         ",
            message: b"",
            expected: "da39a3ee5e6b4b0d3255bfef95601890afd80709",
        },
        Vector {
            name: "'abc'                 ",
            message: b"abc",
            expected: "a9993e364706816aba3e25717850c26c9cd0d89d",
        },
        Vector {
            name: "448 bits of FIPS 180  ",
            message: b"abcdbcdecdefdefgefghfghighijhijkijkljklmklmnlmnomnopnopq",
            expected: "84983e441c3bd26ebaae4aa1f95129e5e54670f1",
        },
        Vector {
            name: "896 bits of FIPS 180  ",
            message: b"abcdefghbcdefghicdefghijdefghijkefghijklfghijklmghijklmnhijklmnoijklmnopjklmnopqklmnopqrlmnopqrsmnopqrstnopqrstu",
            expected: "a49b2446a02c645bf419f995b67091253a04a259",
        },
    ] {
        vector.show(rt);
    }
}

// Lengths at which the padding changes.
fn lengths(rt: &impl Print) {
    let a = [b'a'; 120];
    for vector in [
        Vector {
            name: "55 times 'a'          ",
            message: &a[..55],
            expected: "c1c8bbdc22796e28c0e15163d20899b65621d65a",
        },
        Vector {
            name: "56 times 'a'          ",
            message: &a[..56],
            expected: "c2db330f6083854c99d4b5bfb6e8f29f201be699",
        },
        Vector {
            name: "63 times 'a'          ",
            message: &a[..63],
            expected: "03f09f5b158a7a8cdad920bddc29b81c18a551f5",
        },
        Vector {
            name: "64 times 'a'          ",
            message: &a[..64],
            expected: "0098ba824b5c16427bd7a1122a5a442a25ec644d",
        },
        Vector {
            name: "65 times 'a'          ",
            message: &a[..65],
            expected: "11655326c708d70319be2610e8a57d9a5b959d3b",
        },
        Vector {
            name: "119 times 'a'         ",
            message: &a[..119],
            expected: "ee971065aaa017e0632a8ca6c77bb3bf8b1dfc56",
        },
        Vector {
            name: "120 times 'a'         ",
            message: &a[..120],
            expected: "f34c1488385346a55709ba056ddd08280dd4c6d6",
        },
    ] {
        vector.show(rt);
    }
}

// A million times 'a' by the stream alone: the vector's message is a hundred of them, joined again and again.
fn million(rt: &impl Print) {
    let vector = Vector {
        name: "1,000,000 times 'a'   ",
        message: &[b'a'; 100],
        expected: "34aa973cd4c4daa4f61eeb2bdbad27316534016f",
    };
    let mut s = Stream::begin();
    for _ in 0..10_000u32 {
        s.push_all(vector.message);
    }
    vector.show_digest(rt, "stream   ", s.finish());
}

fn main(rt: HostRuntime) {
    let _ = println!(rt;
        "message               way      got                                       expected"
    );
    fips(&rt);
    lengths(&rt);
    million(&rt);
}
