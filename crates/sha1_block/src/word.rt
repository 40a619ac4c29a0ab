// The three functions of FIPS 180-4 on 32-bit words.
ghost use Rattle.std.specs.Prelude.{◌≡◌};
ghost use Rattle.sha1_block.specs.Sha1.{ch, parity, maj};

pub fn ch(x: u32, y: u32, z: u32) -> u32
    ensures { result ≡ ch x y z }
{
    (x & y) ^ (!x & z)
}

pub fn parity(x: u32, y: u32, z: u32) -> u32
    ensures { result ≡ parity x y z }
{
    x ^ y ^ z
}

pub fn maj(x: u32, y: u32, z: u32) -> u32
    ensures { result ≡ maj x y z }
{
    (x & y) ^ (x & z) ^ (y & z)
}
